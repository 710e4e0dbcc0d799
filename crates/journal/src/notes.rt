//! Asking the journal, and writing into it.
ghost use Rattle.std.specs.Prelude.{◌≡◌, ◌≤◌, ◌&&◌, [], ◌∷◌, ◌++◌, map, length, IfOk, MatchResult, ◌==◌, nat_eq, nat_le};
ghost use Rattle.model.specs.Lists.{any, count};
ghost use Rattle.model.specs.Same.{same_list};
ghost use Rattle.wire.specs.Views.{quorum_of};
ghost use Rattle.journal.specs.Marks.{mark_of};
ghost use Rattle.journal.specs.Notes.{Note, stands_in, under_in, fits_with, room_in, of_two, room_for_root, noted_in};
ghost use Rattle.journal.specs.Prepared.{Placed, Copied};
ghost use Rattle.journal.specs.Table.{first_at, rows_of};
ghost use Rattle.journal.specs.Views.{notes_of, note_for};

use crate::entry::Entry;
use crate::journal::Journal;
use crate::row::Row;
use signature::part::Signature;
use std::alloc::{AllocError, Global};
use wire::number::read_number;
use wire::quorum::{Quorum, same_quorum};

/// The most papers in all, and under one quorum.
const MOST: usize = 65536;

const MOST_UNDER: usize = 16384;

/// The quorum that was asked for a paper, and the signatures that were counted for it.
#[derive(Clone, Copy)]
pub struct Backing<'q, 's> {
    pub quorum: Quorum<'q>,
    pub signatures: &'s [Signature],
}

/// A paper, and the day on which it was taken.
#[derive(Clone, Copy)]
pub struct Taken<'p> {
    pub day: u64,
    pub paper: &'p [u8],
}

/// How many of a root's two entries come under one of its quorums.
fn of_two(quorum: Quorum<'_>, other: Quorum<'_>) -> usize
    ensures { (result ≡ of_two (quorum_of quorum.entry) (quorum_of other.entry)) × (result ≤ 2) }
{
    if same_quorum(quorum, other) { 2 } else { 1 }
}

/// The first bytes of a paper, its kind and number among them: most papers differ there already.
fn mark_of(paper: &[u8]) -> u64
    ensures { result ≡ mark_of paper.now }
{
    read_number(paper).map_or(0, |(mark, _)| mark)
}

impl Entry {
    /// Day and paper stand apart here: the field `bytes` is shown of a slice that is a parameter.
    fn copy(
        heap: Global,
        at: usize,
        day: u64,
        paper: &[u8],
        signatures: &[Signature],
    ) -> Result<Entry, AllocError>
        ensures { IfOk result (λ e. Copied at day paper.now signatures.now e) }
    {
        let mark = mark_of(paper);
        let paper = Vec::from_slice(heap, paper)?;
        let signatures = Vec::from_slice(heap, signatures)?;
        Ok(Entry {
            at,
            day,
            mark,
            paper,
            signatures,
        })
    }

    /// Whether it is this paper, under the quorum at this place.
    #[tactic(auto, using(crate::proofs::Places::bytes_equal))]
    fn is(&self, at: usize, mark: u64, paper: &[u8]) -> bool
        ensures { mark ≡ mark_of paper.now → result ≡ (at == self.now.at && same_list paper.now self.now.paper.items) }
    {
        self.at == at && self.mark == mark && paper == self.paper.as_slice()
    }
}

impl Journal {
    pub fn new(heap: Global) -> Journal
        ensures { notes_of result ≡ [] }
    {
        Journal {
            rows: Vec::new(heap),
            entries: Vec::new(heap),
        }
    }

    /// The place of a quorum in the table, or the table's end.
    fn place_of(&self, quorum: Quorum<'_>) -> usize
        ensures { result ≡ first_at (quorum_of quorum.entry) (rows_of self.now.rows.items) }
    {
        self.rows
            .iter()
            .position(|row| same_quorum(quorum, row.quorum()))
            .unwrap_or(self.rows.len())
    }

    /// Whether at least so many entries name this place.
    fn has_many_at(&self, at: usize, many: usize) -> bool
        ensures { result ≡ nat_le many (count (λ e. nat_eq at e.at) self.now.entries.items) }
    {
        // All of them are counted: with `take`, which stops where there are enough, each of them takes more.
        let there = self.entries.iter().filter(|entry| entry.at == at);
        there.count() >= many
    }

    /// Whether a paper is there under the quorum at a place.
    fn has_at(&self, at: usize, paper: &[u8]) -> bool
        ensures { result ≡ any (λ e. (at == e.at) && same_list paper.now e.paper.items) self.now.entries.items }
    {
        let mark = mark_of(paper);
        self.entries.iter().any(|entry| entry.is(at, mark, paper))
    }

    /// Whether at least so many papers were taken under a quorum.
    fn has_many_under(&self, quorum: Quorum<'_>, many: usize) -> bool
        ensures { result ≡ nat_le many (under_in (quorum_of quorum.entry) (notes_of self.now)) }
    {
        self.has_many_at(self.place_of(quorum), many)
    }

    /// Whether a paper stands there already for this quorum.
    pub fn stands(&self, quorum: Quorum<'_>, paper: &[u8]) -> bool
        ensures { result ≡ stands_in (quorum_of quorum.entry) paper.now (notes_of self.now) }
    {
        self.has_at(self.place_of(quorum), paper)
    }

    /// Whether the limits leave room for so many more in all, and so many more under a quorum.
    fn fits(&self, more: usize, same: usize, quorum: Quorum<'_>) -> bool
        requires { (more ≤ 2) × (same ≤ 2) }
        ensures { result ≡ fits_with more same (quorum_of quorum.entry) (notes_of self.now) }
    {
        self.entries.as_slice().len() <= MOST - more
            && !self.has_many_under(quorum, MOST_UNDER + 1 - same)
    }

    /// Whether there is room for a paper under a quorum, if it needs any.
    pub fn has_room(&self, quorum: Quorum<'_>, paper: &[u8]) -> bool
        ensures { result ≡ room_in (quorum_of quorum.entry) paper.now (notes_of self.now) }
    {
        self.stands(quorum, paper) || self.fits(1, 1, quorum)
    }

    /// Whether there is room for a root, which stands there twice: under the old quorum and under its own.
    pub fn has_room_for_root(&self, old: Quorum<'_>, own: Quorum<'_>) -> bool
        ensures { result ≡ room_for_root (quorum_of old.entry) (quorum_of own.entry) (notes_of self.now) }
    {
        self.fits(2, of_two(old, own), old) && self.fits(2, of_two(own, old), own)
    }

    /// The place of a quorum, which it gets here if it has none.
    fn place_for(&mut self, heap: Global, quorum: Quorum<'_>) -> Result<usize, AllocError>
        ensures { MatchResult result (λ at. Placed self.old self.new (quorum_of quorum.entry) at) (λ _. notes_of self.new ≡ notes_of self.old) }
    {
        let at = self.place_of(quorum);
        if at < self.rows.as_slice().len() {
            return Ok(at);
        }
        let row = Row::copy(heap, quorum)?;
        self.rows.push(row)?;
        Ok(at)
    }

    /// One entry more.
    fn append(
        &mut self,
        heap: Global,
        backing: Backing<'_, '_>,
        taken: Taken<'_>,
    ) -> Result<(), AllocError>
        ensures { MatchResult result (λ _. notes_of self.new ≡ notes_of self.old ++ (note_for backing.entry taken.entry.day taken.entry.paper.now ∷ [])) (λ _. notes_of self.new ≡ notes_of self.old) }
    {
        let at = self.place_for(heap, backing.quorum)?;
        let entry = Entry::copy(heap, at, taken.day, taken.paper, backing.signatures)?;
        self.entries.push(entry)?;
        Ok(())
    }

    /// A paper was taken on a day; it is not written again where it stands already for this quorum.
    pub fn note(
        &mut self,
        heap: Global,
        backing: Backing<'_, '_>,
        taken: Taken<'_>,
    ) -> Result<(), AllocError>
        ensures { MatchResult result (λ _. notes_of self.new ≡ noted_in (note_for backing.entry taken.entry.day taken.entry.paper.now) (notes_of self.old)) (λ _. notes_of self.new ≡ notes_of self.old) }
    {
        if self.stands(backing.quorum, taken.paper) {
            return Ok(());
        }
        self.append(heap, backing, taken)
    }

    /// A root was taken on a day: it stands there for the old quorum and for its own, or, for want of memory, for neither.
    pub fn note_root(
        &mut self,
        heap: Global,
        old: Backing<'_, '_>,
        own: Backing<'_, '_>,
        taken: Taken<'_>,
    ) -> Result<(), AllocError>
        ensures { MatchResult result (λ _. notes_of self.new ≡ notes_of self.old ++ (note_for old.entry taken.entry.day taken.entry.paper.now ∷ note_for own.entry taken.entry.day taken.entry.paper.now ∷ [])) (λ _. notes_of self.new ≡ notes_of self.old) }
    {
        let place = self.place_for(heap, old.quorum)?;
        let other = self.place_for(heap, own.quorum)?;
        let first = Entry::copy(heap, place, taken.day, taken.paper, old.signatures)?;
        let second = Entry::copy(heap, other, taken.day, taken.paper, own.signatures)?;
        self.entries.reserve(2)?;
        self.entries.push_reserved(first);
        self.entries.push_reserved(second);
        Ok(())
    }
}
