//! A paper that is kept.
ghost use Rattle.std.specs.Prelude.{◌≡◌, true};
ghost use Rattle.device_next.specs.Kinds.{reads_as};

use signature::part::Signature;

/// The kind bytes of papers. A const parameter is a number: no enum can stand there.
pub const ROOT: u8 = 1;

pub const TIMESTAMP: u8 = 2;

pub const SNAPSHOT: u8 = 3;

pub const TARGETS: u8 = 4;

/// The bytes of a paper of a kind, with all signatures that it came with.
#[derive(Drop)]
pub struct Kept<const KIND: u8> {
    pub(crate) paper: Vec<u8>,
    pub(crate) signatures: Vec<Signature>,
    ghost reads: { reads_as KIND paper.items ≡ true },
}
