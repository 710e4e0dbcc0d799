//! The part of an offer that has its signatures, in lent memory.
ghost use Rattle.std.specs.Prelude.{◌≡◌, take, drop};
ghost use Rattle.wire.specs.Formats.{Reads, Lawful};
ghost use Rattle.signature.specs.Signatures.{signatures as signatures_f};
ghost use Rattle.signature.specs.Views.{signatures_of};

use model::fault::Fault;
use wire::key::Bytes32;
use wire::number::read_number;

/// The 32 bytes of a key, and the 64 of a signature that is said to be of it.
pub type Signature = [u8; 96];

/// The signatures of an offer, in the order in which they came.
#[derive(Clone, Copy)]
pub struct Signatures<'a> {
    pub items: &'a [Signature],
}

/// The signatures part, and the bytes behind it.
pub fn read_signatures(bytes: &[u8]) -> Result<(Signatures<'_>, &[u8]), Fault>
    ensures { Reads signatures_of result (signatures_f.read bytes.now) }
{
    let (count, rest) = read_number::<u8, 1>(bytes)?;
    let size = count as usize * 96;
    if rest.len() < size {
        return Err(Fault::Malformed);
    }
    let (body, rest) = rest.split_at(size);
    let (items, _) = body.as_chunks::<96>();
    Ok((Signatures { items }, rest))
}

/// The key of a signature, and its own bytes.
pub fn key_and_bytes(signature: &Signature) -> (&Bytes32, &[u8; 64])
    ensures { (result.0.now ≡ take 32 signature.now) × (result.1.now ≡ drop 32 signature.now) }
{
    (
        signature.first_chunk().unwrap(),
        signature.last_chunk().unwrap(),
    )
}

/// What is written of signatures is read back, and what is read is written as it was.
pub fn part_stands() -> u8
    ensures { Lawful signatures_f }
{
    0
}
