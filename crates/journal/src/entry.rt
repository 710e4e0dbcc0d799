//! An entry of the journal.
ghost use Rattle.std.specs.Prelude.{◌≡◌, true, ◌==◌};
ghost use Rattle.journal.specs.Marks.{is_bytes, mark_of};

use signature::part::Signature;

/// A paper that was taken; `at` is the place of its quorum in the table.
#[derive(Drop)]
pub struct Entry {
    pub(crate) at: usize,
    pub(crate) day: u64,
    pub(crate) mark: u64,
    pub(crate) paper: Vec<u8>,
    pub(crate) signatures: Vec<Signature>,
    ghost marked: { (mark == mark_of paper.items) ≡ true },
    ghost bytes: { is_bytes paper.items ≡ true },
}
