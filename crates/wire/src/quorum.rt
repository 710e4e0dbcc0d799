//! Quorums, with their keys in lent memory.
ghost use Rattle.std.specs.Prelude.{◌≡◌};
ghost use Rattle.model.specs.Same.{same_quorums};
ghost use Rattle.wire.specs.Formats.{Reads};
ghost use Rattle.wire.specs.Leaves.{keys as keys_f, quorum as quorum_f};
ghost use Rattle.wire.specs.Views.{quorum_of};

use crate::key::{Bytes32, Keys};
use crate::number::read_number;
use crate::table::Table;
use model::fault::Fault;

/// Keys, and how many different ones of them have to sign.
#[derive(Clone, Copy, PartialEq, Eq)]
pub struct Quorum<'a> {
    pub threshold: u8,
    pub keys: &'a [Bytes32],
}

/// The most keys of a quorum.
const MOST_KEYS: u8 = 16;

/// So many keys, in rising order.
fn read_keys(bytes: &[u8], count: u8) -> Result<(&[Bytes32], &[u8]), Fault>
    ensures { Reads (λ k. k.now) result ((keys_f count).read bytes.now) }
{
    let (_, rest) = Table::<Keys>::read(bytes, count as u16)?;
    let (keys, _) = bytes[..count as usize * 32].as_chunks::<32>();
    Ok((keys, rest))
}

/// A quorum of 1 to 16 keys, and the bytes behind it.
pub fn read_quorum(bytes: &[u8]) -> Result<(Quorum<'_>, &[u8]), Fault>
    ensures { Reads quorum_of result (quorum_f.read bytes.now) }
{
    let (count, rest) = read_number::<u8, 1>(bytes)?;
    if count < 1 || count > MOST_KEYS {
        return Err(Fault::OutOfRange);
    }
    let (threshold, rest) = read_number::<u8, 1>(rest)?;
    if threshold < 1 || threshold > count {
        return Err(Fault::OutOfRange);
    }
    let (keys, rest) = read_keys(rest, count)?;
    Ok((Quorum { threshold, keys }, rest))
}

/// Whether two quorums are the same: `==`, with the law's word for it.
pub fn same_quorum(a: Quorum<'_>, b: Quorum<'_>) -> bool
    ensures { result ≡ same_quorums (quorum_of a.entry) (quorum_of b.entry) }
{
    a == b
}
