//! The cases.
use crate::papers::{FIRST, KEY, Paper, SECOND, bytes_of};
use device_next::state::Device;
use device_next::stop::answer_to as told;
use model::answer::Answer;
use signature::part::read_signatures;
use signature::stand_in::{StandIn, sign_stand_in};
use std::alloc::{AllocError, Global};
use std::process::Abort;
use std::test::Fail;
use stream::Offer;

/// What comes to a box.
#[derive(Clone, Copy)]
enum Event<'a> {
    /// A paper, and the keys that sign it.
    Offer(Paper<'a>, &'a [u8]),
    Day(u64),
}

/// An event, with the answer to it, 0 or the number of a fault, and the version of the timestamp that is then kept, or 0.
type Case<'a> = (&'a str, Event<'a>, u8, u32);

/// The tables have numbers, as users know them, so that a row stays one line.
fn number_of(answer: Answer) -> u8 {
    match answer {
        Ok(()) => 0,
        Err(fault) => fault.number(),
    }
}

/// The signatures of keys under a paper.
fn signed(heap: Global, paper: &[u8], signers: &[u8]) -> Result<Vec<u8>, AllocError> {
    let mut bytes = Vec::new(heap);
    bytes.push((signers.len() % 256) as u8)?;
    for signer in signers {
        let key = [*signer; 32];
        bytes.extend_from_slice(&key)?;
        bytes.extend_from_slice(&sign_stand_in(&key, paper))?;
    }
    Ok(bytes)
}

/// A paper comes with its signatures.
fn offer(heap: Global, device: &mut Device, paper: &[u8], part: &[u8]) -> Result<u8, AllocError> {
    let Ok((signatures, _)) = read_signatures(part) else {
        return Ok(u8::MAX);
    };
    let offer = Offer { paper, signatures };
    Ok(number_of(told(device.offer(heap, &StandIn, offer))?))
}

fn answer_to(heap: Global, device: &mut Device, event: Event<'_>) -> Result<u8, AllocError> {
    match event {
        Event::Offer(paper, signers) => {
            let paper = bytes_of(heap, paper)?;
            let part = signed(heap, &paper, signers)?;
            offer(heap, device, &paper, &part)
        }
        Event::Day(day) => Ok(number_of(device.begin(day))),
    }
}

/// Which version of a timestamp is kept. With none there is no snapshot either.
fn kept_in(device: &Device) -> u32 {
    match device.timestamp() {
        Some(timestamp) => timestamp.version,
        None if device.snapshot().is_none() => 0,
        None => u32::MAX,
    }
}

fn try_all(
    rt: &impl Abort,
    heap: Global,
    device: &mut Device,
    cases: &[Case<'_>],
) -> Result<(), Fail> {
    for case in cases {
        let answer = answer_to(heap, device, case.1)?;
        assert_eq!(rt; answer, case.2, "{}", case.0);
        assert_eq!(rt; kept_in(device), case.3, "{}", case.0);
    }
    Ok(())
}

/// A box whose first root has the version 1, and what comes to it.
fn run(rt: &impl Abort, heap: Global, cases: &[Case<'_>]) -> Result<(), Fail> {
    let root = bytes_of(heap, Paper::Root(1, FIRST, FIRST))?;
    match told(Device::new(heap, &root))? {
        Ok(mut device) => try_all(rt, heap, &mut device, cases),
        Err(_) => Err(Fail::new("the first root is refused")),
    }
}

#[test]
fn two_of_three_keys_have_to_sign(rt: HostRuntime) -> Result<(), Fail> {
    run(&rt, rt.alloc(), ENOUGH)
}

const ENOUGH: &[Case<'static>] = &[
    (
        "nobody",
        Event::Offer(Paper::Timestamp(1, 1, &[]), &[]),
        4,
        0,
    ),
    (
        "one key twice",
        Event::Offer(Paper::Timestamp(1, 1, &[]), &[1, 1]),
        4,
        0,
    ),
    (
        "a key of others",
        Event::Offer(Paper::Timestamp(1, 1, &[]), &[1, 4]),
        4,
        0,
    ),
    (
        "two keys",
        Event::Offer(Paper::Timestamp(1, 1, &[]), &[3, 1]),
        0,
        1,
    ),
];

#[test]
fn a_root_is_the_next_one_and_signed_by_both(rt: HostRuntime) -> Result<(), Fail> {
    run(&rt, rt.alloc(), ROOTS)
}

const ROOTS: &[Case<'static>] = &[
    (
        "not enough of its own keys",
        Event::Offer(Paper::Root(2, SECOND, FIRST), &[1, 2]),
        5,
        0,
    ),
    (
        "not enough of the old keys",
        Event::Offer(Paper::Root(2, SECOND, FIRST), &[4, 5]),
        4,
        0,
    ),
    (
        "two on",
        Event::Offer(Paper::Root(3, SECOND, FIRST), &[1, 2, 4, 5]),
        5,
        0,
    ),
    (
        "both",
        Event::Offer(Paper::Root(2, SECOND, FIRST), &[1, 2, 4, 5]),
        0,
        0,
    ),
    (
        "again",
        Event::Offer(Paper::Root(2, SECOND, FIRST), &[1, 2, 4, 5]),
        5,
        0,
    ),
    (
        "the next one by the old keys",
        Event::Offer(Paper::Root(3, SECOND, FIRST), &[1, 2]),
        4,
        0,
    ),
    (
        "the next one",
        Event::Offer(Paper::Root(3, SECOND, FIRST), &[4, 5]),
        0,
        0,
    ),
];

#[test]
fn new_timestamp_keys_forget_a_timestamp(rt: HostRuntime) -> Result<(), Fail> {
    run(&rt, rt.alloc(), FORGOTTEN)
}

const FORGOTTEN: &[Case<'static>] = &[
    (
        "a high one",
        Event::Offer(Paper::Timestamp(4000000000, 5, &[]), &[1, 2]),
        0,
        4000000000,
    ),
    (
        "its snapshot",
        Event::Offer(Paper::Snapshot(5, &[]), &[KEY]),
        0,
        4000000000,
    ),
    (
        "a lower one",
        Event::Offer(Paper::Timestamp(8, 5, &[]), &[1, 2]),
        6,
        4000000000,
    ),
    (
        "a root with the same keys",
        Event::Offer(Paper::Root(2, FIRST, FIRST), &[1, 2]),
        0,
        4000000000,
    ),
    (
        "a root with other keys",
        Event::Offer(Paper::Root(3, FIRST, SECOND), &[1, 2]),
        0,
        0,
    ),
    (
        "by the old keys",
        Event::Offer(Paper::Timestamp(8, 1, &[]), &[1, 2]),
        4,
        0,
    ),
    (
        "by the new keys",
        Event::Offer(Paper::Timestamp(8, 1, &[]), &[4, 5]),
        0,
        8,
    ),
];

#[test]
fn no_role_of_a_snapshot_goes_back(rt: HostRuntime) -> Result<(), Fail> {
    run(&rt, rt.alloc(), BACK)
}

const BACK: &[Case<'static>] = &[
    (
        "a first timestamp",
        Event::Offer(Paper::Timestamp(1, 5, &[(2, 7)]), &[1, 2]),
        0,
        1,
    ),
    (
        "a first snapshot",
        Event::Offer(Paper::Snapshot(5, &[(2, 7)]), &[KEY]),
        0,
        1,
    ),
    (
        "the second timestamp",
        Event::Offer(Paper::Timestamp(2, 6, &[(2, 6)]), &[1, 2]),
        0,
        2,
    ),
    (
        "an older role",
        Event::Offer(Paper::Snapshot(6, &[(2, 6)]), &[KEY]),
        8,
        2,
    ),
    (
        "the third timestamp",
        Event::Offer(Paper::Timestamp(3, 6, &[]), &[1, 2]),
        0,
        3,
    ),
    (
        "no role",
        Event::Offer(Paper::Snapshot(6, &[]), &[KEY]),
        8,
        3,
    ),
    (
        "the fourth timestamp",
        Event::Offer(Paper::Timestamp(4, 6, &[(2, 7)]), &[1, 2]),
        0,
        4,
    ),
    (
        "the same role",
        Event::Offer(Paper::Snapshot(6, &[(2, 7)]), &[KEY]),
        0,
        4,
    ),
];

#[test]
fn a_snapshot_is_the_one_that_is_named(rt: HostRuntime) -> Result<(), Fail> {
    run(&rt, rt.alloc(), NAMED)
}

const NAMED: &[Case<'static>] = &[
    (
        "no timestamp yet",
        Event::Offer(Paper::Snapshot(5, &[(2, 7)]), &[KEY]),
        7,
        0,
    ),
    (
        "its timestamp",
        Event::Offer(Paper::Timestamp(1, 5, &[(2, 7)]), &[1, 2]),
        0,
        1,
    ),
    (
        "another version",
        Event::Offer(Paper::Snapshot(6, &[(2, 7)]), &[KEY]),
        7,
        1,
    ),
    (
        "other bytes",
        Event::Offer(Paper::Snapshot(5, &[(2, 8)]), &[KEY]),
        7,
        1,
    ),
    (
        "another key",
        Event::Offer(Paper::Snapshot(5, &[(2, 7)]), &[1, 2]),
        4,
        1,
    ),
    (
        "the named one",
        Event::Offer(Paper::Snapshot(5, &[(2, 7)]), &[KEY]),
        0,
        1,
    ),
    (
        "again",
        Event::Offer(Paper::Snapshot(5, &[(2, 7)]), &[KEY]),
        0,
        1,
    ),
];

#[test]
fn targets_are_listed_and_delegated_to(rt: HostRuntime) -> Result<(), Fail> {
    run(&rt, rt.alloc(), TARGETS)
}

const LISTED: &[(u16, u32)] = &[(0, 1), (2, 7), (3, 1)];

const TARGETS: &[Case<'static>] = &[
    (
        "no snapshot yet",
        Event::Offer(Paper::Targets(0, 1, &[(2, 20)]), &[KEY]),
        9,
        0,
    ),
    (
        "a timestamp",
        Event::Offer(Paper::Timestamp(1, 1, LISTED), &[1, 2]),
        0,
        1,
    ),
    (
        "its snapshot",
        Event::Offer(Paper::Snapshot(1, LISTED), &[KEY]),
        0,
        1,
    ),
    (
        "nobody delegates yet",
        Event::Offer(Paper::Targets(2, 7, &[]), &[20]),
        10,
        1,
    ),
    (
        "another version",
        Event::Offer(Paper::Targets(0, 2, &[(2, 20)]), &[KEY]),
        9,
        1,
    ),
    (
        "role 0 by others",
        Event::Offer(Paper::Targets(0, 1, &[(2, 20)]), &[20]),
        4,
        1,
    ),
    (
        "role 0",
        Event::Offer(Paper::Targets(0, 1, &[(2, 20)]), &[KEY]),
        0,
        1,
    ),
    (
        "role 2 by others",
        Event::Offer(Paper::Targets(2, 7, &[]), &[KEY]),
        4,
        1,
    ),
    (
        "another version of role 2",
        Event::Offer(Paper::Targets(2, 6, &[]), &[20]),
        9,
        1,
    ),
    (
        "role 2",
        Event::Offer(Paper::Targets(2, 7, &[]), &[20]),
        0,
        1,
    ),
    (
        "role 2 again",
        Event::Offer(Paper::Targets(2, 7, &[]), &[20]),
        0,
        1,
    ),
    (
        "role 3",
        Event::Offer(Paper::Targets(3, 1, &[]), &[KEY, 20]),
        10,
        1,
    ),
];

#[test]
fn papers_run_out_after_their_last_day(rt: HostRuntime) -> Result<(), Fail> {
    run(&rt, rt.alloc(), DAYS)
}

const DAYS: &[Case<'static>] = &[
    ("the day after tomorrow", Event::Day(2), 2, 0),
    ("tomorrow", Event::Day(1), 0, 0),
    ("today", Event::Day(1), 2, 0),
    (
        "a timestamp on its last day",
        Event::Offer(Paper::Timestamp(1, 1, LISTED), &[1, 2]),
        0,
        1,
    ),
    (
        "a snapshot on its last day",
        Event::Offer(Paper::Snapshot(1, LISTED), &[KEY]),
        0,
        1,
    ),
    (
        "targets on their last day",
        Event::Offer(Paper::Targets(0, 1, &[]), &[KEY]),
        0,
        1,
    ),
    ("the next day", Event::Day(2), 0, 1),
    (
        "a timestamp",
        Event::Offer(Paper::Timestamp(2, 1, LISTED), &[1, 2]),
        11,
        1,
    ),
    (
        "a snapshot",
        Event::Offer(Paper::Snapshot(1, LISTED), &[KEY]),
        11,
        1,
    ),
    (
        "targets",
        Event::Offer(Paper::Targets(0, 1, &[]), &[KEY]),
        11,
        1,
    ),
    (
        "a root does not run out",
        Event::Offer(Paper::Root(2, FIRST, FIRST), &[1, 2]),
        0,
        1,
    ),
];

#[test]
fn damaged_bytes_change_nothing(rt: HostRuntime) -> Result<(), Fail> {
    run(&rt, rt.alloc(), DAMAGED)
}

const DAMAGED: &[Case<'static>] = &[
    (
        "a timestamp",
        Event::Offer(Paper::Timestamp(3, 1, &[]), &[1, 2]),
        0,
        3,
    ),
    (
        "again",
        Event::Offer(Paper::Timestamp(3, 1, &[]), &[1, 2]),
        6,
        3,
    ),
    ("no bytes", Event::Offer(Paper::Bytes(&[]), &[1, 2]), 1, 3),
    (
        "no such kind",
        Event::Offer(Paper::Bytes(&[5, 0, 0, 0, 4]), &[1, 2]),
        1,
        3,
    ),
    (
        "too short",
        Event::Offer(Paper::Bytes(&[2, 0, 0, 0, 4]), &[1, 2]),
        1,
        3,
    ),
    (
        "version 0",
        Event::Offer(Paper::Timestamp(0, 1, &[]), &[1, 2]),
        2,
        3,
    ),
    (
        "falling keys",
        Event::Offer(Paper::Root(2, FIRST, &[[5; 32], [4; 32]]), &[1, 2]),
        3,
        3,
    ),
    (
        "roles twice",
        Event::Offer(Paper::Snapshot(1, &[(2, 7), (2, 7)]), &[KEY]),
        3,
        3,
    ),
];
