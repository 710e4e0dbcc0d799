//! Timestamps: which snapshot is the newest.
ghost use Rattle.wire.specs.Formats.{Reads};
ghost use Rattle.metadata.specs.Papers.{timestamp as timestamp_f};
ghost use Rattle.metadata.specs.Views.{timestamp_of};

use model::fault::Fault;
use wire::key::Bytes32;
use wire::number::{read_block, read_number, read_version};

#[derive(Clone, Copy)]
pub struct Timestamp<'a> {
    pub version: u32,
    pub expires: u32,
    pub snapshot: u32,
    pub digest: &'a Bytes32,
}

/// A timestamp, from behind its kind byte.
pub fn read_timestamp(bytes: &[u8]) -> Result<(Timestamp<'_>, &[u8]), Fault>
    ensures { Reads timestamp_of result (timestamp_f.read bytes.now) }
{
    let (version, rest) = read_version(bytes)?;
    let (expires, rest) = read_number(rest)?;
    let (snapshot, rest) = read_version(rest)?;
    let (digest, rest) = read_block(rest)?;
    let read = Timestamp {
        version,
        expires,
        snapshot,
        digest,
    };
    Ok((read, rest))
}
