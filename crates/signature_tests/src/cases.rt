//! The cases.
ghost use Rattle.std.specs.Prelude.{true, ◌==◌, slice_index};
ghost use Rattle.std.proofs.Common.{rules};

use model::fault::Fault;
use signature::counting::Signed;
use signature::part::{Signatures, read_signatures};
use signature::stand_in::{StandIn, sign_stand_in};
use signature::verifier::Verifier;
use std::alloc::{AllocError, Global};
use std::process::Abort;
use std::test::Fail;
use wire::key::Bytes32;
use wire::quorum::Quorum;

const MESSAGE: &[u8] = b"paper";

/// Accepts the signatures whose last byte is 1.
#[derive(Clone, Copy)]
struct Lenient;

impl Verifier for Lenient {
    ghost accepts = { λ key message signature. (slice_index signature 63 == 1) };

    ghost signed = { λ key message. true };

    ghost sound = { Prim.search rules };

    fn check(&self, key: &Bytes32, message: &[u8], signature: &[u8; 64]) -> bool {
        signature[63] == 1
    }
}

/// A part with the stand-in's signatures: the key that each names, and the key that made it.
fn part_of(heap: Global, items: &[(u8, u8)]) -> Result<Vec<u8>, AllocError> {
    let mut bytes = Vec::new(heap);
    bytes.push(u8::try_from(items.len()).unwrap_or(255))?;
    for (named, by) in items {
        bytes.extend_from_slice(&[*named; 32])?;
        bytes.extend_from_slice(&sign_stand_in(&[*by; 32], MESSAGE))?;
    }
    Ok(bytes)
}

/// Which of the keys 1, 2 and 3 are counted, and whether two of them are; `case` says what is tried.
fn expect(
    rt: &impl Abort,
    heap: Global,
    case: &str,
    items: &[(u8, u8)],
    counted: &[u8],
    enough: bool,
) -> Result<(), Fail> {
    let bytes = part_of(heap, items)?;
    let Ok((signatures, rest)) = read_signatures(&bytes) else {
        return Err(Fail::new("the part is malformed"));
    };
    assert!(rt; rest.is_empty(), "{case}");
    let quorum = Quorum {
        threshold: 2,
        keys: &[[1; 32], [2; 32], [3; 32]],
    };
    let signed = Signed {
        verifier: &StandIn,
        message: MESSAGE,
        signatures,
    };
    let found = signed.count(heap, quorum)?;
    assert_eq!(rt; found.signatures.len(), counted.len(), "{case}");
    for (signature, key) in found.signatures.iter().zip(counted) {
        assert_eq!(rt; signature[31], *key, "{case}");
    }
    assert_eq!(rt; found.is_enough(), enough, "{case}");
    assert_eq!(rt; signed.is_enough(quorum), enough, "{case}");
    Ok(())
}

#[test]
fn a_key_counts_once(rt: HostRuntime) -> Result<(), Fail> {
    let heap = rt.alloc();
    expect(&rt, heap, "one key", &[(1, 1)], &[1], false)?;
    expect(&rt, heap, "one key twice", &[(1, 1), (1, 1)], &[1], false)?;
    expect(&rt, heap, "one key 255 times", &[(1, 1); 255], &[1], false)?;
    expect(
        &rt,
        heap,
        "two keys, in rising order",
        &[(3, 3), (1, 1), (3, 3)],
        &[1, 3],
        true,
    )
}

#[test]
fn only_right_signatures_of_the_quorum_count(rt: HostRuntime) -> Result<(), Fail> {
    let heap = rt.alloc();
    expect(&rt, heap, "no signatures", &[], &[], false)?;
    expect(&rt, heap, "wrong keys", &[(1, 2), (2, 1)], &[], false)?;
    expect(&rt, heap, "other keys", &[(8, 8), (9, 9)], &[], false)?;
    expect(
        &rt,
        heap,
        "a wrong one before the right one",
        &[(1, 2), (2, 2), (1, 1)],
        &[1, 2],
        true,
    )
}

#[test]
fn bytes_that_end_too_soon_are_malformed(rt: HostRuntime) {
    let bytes = [2; 193];
    assert!(rt; read_signatures(&bytes).is_ok());
    assert!(rt; matches!(read_signatures(&bytes[..192]), Err(Fault::Malformed)));
    assert!(rt; matches!(read_signatures(&[]), Err(Fault::Malformed)));
}

#[test]
fn the_first_right_signature_is_given_back(rt: HostRuntime) -> Result<(), Fail> {
    let mut items = [[0; 96]; 3];
    items[1][95] = 1;
    items[2][95] = 1;
    items[1][50] = 7;
    let quorum = Quorum {
        threshold: 1,
        keys: &[[0; 32]],
    };
    let signed = Signed {
        verifier: &Lenient,
        message: MESSAGE,
        signatures: Signatures { items: &items },
    };
    let found = signed.count(rt.alloc(), quorum)?;
    assert!(rt; found.signatures.len() == 1);
    assert_eq!(rt; found.signatures[0][50], 7);
    Ok(())
}

#[test]
fn the_stand_in_makes_these_signatures(rt: HostRuntime) {
    let ones = [
        0xf0, 0x71, 0xd1, 0xf8, 0x05, 0x47, 0x84, 0xe9, 0x0b, 0xfc, 0x6a, 0xcb, 0xdf, 0x3c, 0x49,
        0xc2, 0x77, 0x69, 0x59, 0x1b, 0xb4, 0x66, 0x94, 0x5c, 0x64, 0x01, 0x19, 0x1e, 0xbb, 0x52,
        0xff, 0x1c, 0x68, 0x87, 0xff, 0x26, 0x16, 0x99, 0xa2, 0x0a, 0x15, 0x2c, 0xb7, 0x4e, 0x4a,
        0xd2, 0x42, 0x79, 0x55, 0x46, 0xb0, 0x2b, 0x2b, 0x74, 0xcc, 0xfe, 0x32, 0x1f, 0x90, 0x5f,
        0x72, 0x5b, 0x1a, 0x6f,
    ];
    assert!(rt; sign_stand_in(&[1; 32], MESSAGE) == ones);
    assert!(rt; StandIn.check(&[1; 32], MESSAGE, &ones));
    let mut damaged = ones;
    damaged[63] = 0;
    assert!(rt; !StandIn.check(&[1; 32], MESSAGE, &damaged));
    let zeros = [
        0x66, 0x68, 0x7a, 0xad, 0xf8, 0x62, 0xbd, 0x77, 0x6c, 0x8f, 0xc1, 0x8b, 0x8e, 0x9f, 0x8e,
        0x20, 0x08, 0x97, 0x14, 0x85, 0x6e, 0xe2, 0x33, 0xb3, 0x90, 0x2a, 0x59, 0x1d, 0x0d, 0x5f,
        0x29, 0x25, 0x97, 0xde, 0x33, 0x5e, 0x8c, 0x5f, 0x43, 0xaf, 0x0d, 0xa6, 0x02, 0xfa, 0x18,
        0x82, 0x1f, 0x7d, 0x05, 0x61, 0xba, 0x67, 0x6c, 0xc6, 0x6b, 0x11, 0xc9, 0xfb, 0x21, 0xee,
        0xee, 0xf8, 0xa6, 0x90,
    ];
    assert!(rt; sign_stand_in(&[0; 32], &[]) == zeros);
}
