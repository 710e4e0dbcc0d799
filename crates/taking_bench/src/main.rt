//! Measures how long a box takes for a timestamp at 100 entries of its journal, and at as many as a word says. `bench/taking.sh` runs it.
#![tactic(auto)]

use anyhow::anyhow;
use device_next::state::Device;
use device_next::stop::answer_to;
use encoding_papers::paper::paper_bytes;
use metadata::paper::Metadata;
use metadata::root::Root;
use metadata::timestamp::Timestamp;
use signature::part::read_signatures;
use signature::stand_in::{StandIn, sign_stand_in};
use std::alloc::{AllocError, Global};
use std::env;
use std::time::Instant;
use stream::Offer;
use wire::key::Bytes32;
use wire::quorum::Quorum;

/// Fewer timestamps than a journal takes under one quorum: then comes a root with another key for them.
const UNDER_ONE: u32 = 13100;

/// How many are measured.
const MEASURED: u32 = 20;

/// The key of all but timestamps.
const KEY: Bytes32 = [255; 32];

/// The key of the timestamps under a root.
fn key_of(root: u32) -> Bytes32 {
    [(root % 255) as u8; 32]
}

fn root_paper(heap: Global, version: u32) -> Result<Vec<u8>, AllocError> {
    let all = Quorum {
        threshold: 1,
        keys: &[KEY],
    };
    let timestamp = Quorum {
        threshold: 1,
        keys: &[key_of(version)],
    };
    let paper = Root {
        version,
        expires: 1,
        root: all,
        timestamp,
        snapshot: all,
        top: all,
    };
    paper_bytes(heap, Metadata::Root(paper))
}

fn timestamp_paper(heap: Global, version: u32) -> Result<Vec<u8>, AllocError> {
    let paper = Timestamp {
        version,
        expires: 1,
        snapshot: 1,
        digest: &[7; 32],
    };
    paper_bytes(heap, Metadata::Timestamp(paper))
}

/// A key's signature of a paper, as it comes with it.
fn signed(heap: Global, paper: &[u8], key: &Bytes32) -> Result<Vec<u8>, AllocError> {
    let mut bytes = Vec::new(heap);
    bytes.push(1)?;
    bytes.extend_from_slice(key)?;
    bytes.extend_from_slice(&sign_stand_in(key, paper))?;
    Ok(bytes)
}

/// A paper, with the signatures that come with it.
fn offered<'a>(paper: &'a [u8], part: &'a [u8]) -> anyhow::Result<Offer<'a>> {
    match read_signatures(part) {
        Ok((signatures, _)) => Ok(Offer { paper, signatures }),
        Err(_) => Err(anyhow!("the signature is malformed")),
    }
}

/// Nanoseconds for an offer that is taken. Its paper is signed before.
fn offer(
    rt: &HostRuntime,
    device: &mut Device,
    paper: &[u8],
    key: &Bytes32,
) -> anyhow::Result<u128> {
    let bytes = signed(rt.alloc(), paper, key)?;
    let offer = offered(paper, &bytes)?;
    let start = Instant::now(rt)?;
    let answer = device.offer(rt.alloc(), &StandIn, offer);
    let took = start.elapsed(rt)?.as_nanos();
    match answer_to(answer)? {
        Ok(()) => Ok(took),
        Err(_) => Err(anyhow!("an offer is refused")),
    }
}

/// Nanoseconds for a timestamp, by its number. Where its time has come, a new root is taken first.
fn take(rt: &HostRuntime, device: &mut Device, number: u32) -> anyhow::Result<u128> {
    let heap = rt.alloc();
    let root = number / UNDER_ONE + 1;
    if number % UNDER_ONE == 0 {
        offer(rt, device, &root_paper(heap, root)?, &KEY)?;
    }
    offer(rt, device, &timestamp_paper(heap, number)?, &key_of(root))
}

/// Nanoseconds for all timestamps from one on, up to another.
fn take_all(rt: &HostRuntime, device: &mut Device, from: u32, to: u32) -> anyhow::Result<u128> {
    let mut sum = 0u128;
    for number in from..to {
        sum = sum.saturating_add(take(rt, device, number)?);
    }
    Ok(sum)
}

/// Takes timestamps from one on, up to another, and prints how long the last of them took, on average.
fn measure(rt: &HostRuntime, device: &mut Device, from: u32, to: u32) -> anyhow::Result<()> {
    let middle = to.saturating_sub(MEASURED);
    let before = take_all(rt, device, from, middle)? / 1000000;
    let each = take_all(rt, device, middle, to)? / MEASURED as u128;
    println!(rt; "{to} timestamps: {each} ns, all before in {before} ms")?;
    Ok(())
}

fn measure_both(rt: &HostRuntime, many: u32) -> anyhow::Result<()> {
    let heap = rt.alloc();
    let Ok(mut device) = answer_to(Device::new(heap, &root_paper(heap, 1)?))? else {
        return Err(anyhow!("the first root is refused"));
    };
    measure(rt, &mut device, 1, 100)?;
    measure(rt, &mut device, 100, many)
}

fn run(rt: &HostRuntime) -> anyhow::Result<()> {
    match env::args(rt)?.nth(1) {
        Some(word) => measure_both(rt, word.parse()?),
        None => Ok(()),
    }
}

fn main(rt: HostRuntime) -> anyhow::Result<()> {
    run(&rt)
}
