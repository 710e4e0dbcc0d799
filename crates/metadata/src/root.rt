//! Roots: the quorums of the four top roles.
ghost use Rattle.wire.specs.Formats.{Reads};
ghost use Rattle.metadata.specs.Papers.{root as root_f};
ghost use Rattle.metadata.specs.Views.{root_of};

use model::fault::Fault;
use wire::number::{read_number, read_version};
use wire::quorum::{Quorum, read_quorum};

#[derive(Clone, Copy)]
pub struct Root<'a> {
    pub version: u32,
    pub expires: u32,
    pub root: Quorum<'a>,
    pub timestamp: Quorum<'a>,
    pub snapshot: Quorum<'a>,
    pub top: Quorum<'a>,
}

/// A root, from behind its kind byte.
pub fn read_root(bytes: &[u8]) -> Result<(Root<'_>, &[u8]), Fault>
    ensures { Reads root_of result (root_f.read bytes.now) }
{
    let (version, rest) = read_version(bytes)?;
    let (expires, rest) = read_number(rest)?;
    let (root, rest) = read_quorum(rest)?;
    let (timestamp, rest) = read_quorum(rest)?;
    let (snapshot, rest) = read_quorum(rest)?;
    let (top, rest) = read_quorum(rest)?;
    let read = Root {
        version,
        expires,
        root,
        timestamp,
        snapshot,
        top,
    };
    Ok((read, rest))
}
