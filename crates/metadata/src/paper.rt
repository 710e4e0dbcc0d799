//! A paper of any kind, from its kind byte on.
ghost use Rattle.std.specs.Prelude.{◌≡◌, IfOk};
ghost use Rattle.wire.specs.Formats.{Reads};
ghost use Rattle.metadata.specs.Papers.{paper as paper_f, paper_in, WellFormed, bytes_of_paper};
ghost use Rattle.metadata.specs.Views.{metadata_of, Is};
ghost use Rattle.metadata.specs.OneForm.{OneForm, WellFormedSound};

use crate::root::{Root, read_root};
use crate::snapshot::{Snapshot, read_snapshot};
use crate::targets::{Targets, read_targets};
use crate::timestamp::{Timestamp, read_timestamp};
use model::fault::Fault;
use wire::number::read_number;

/// A paper of one of the four kinds.
#[derive(Clone, Copy)]
pub enum Metadata<'a> {
    Root(Root<'a>),
    Timestamp(Timestamp<'a>),
    Snapshot(Snapshot<'a>),
    Targets(Targets<'a>),
}

/// A paper, and the bytes behind it.
pub fn read_metadata(bytes: &[u8]) -> Result<(Metadata<'_>, &[u8]), Fault>
    ensures { Reads metadata_of result (paper_f.read bytes.now) }
{
    // The kind is a number in the format, with a refusal for all others.
    let (kind, rest) = read_number::<u8, 1>(bytes)?;
    match kind {
        1 => {
            let (root, rest) = read_root(rest)?;
            Ok((Metadata::Root(root), rest))
        }
        2 => {
            let (timestamp, rest) = read_timestamp(rest)?;
            Ok((Metadata::Timestamp(timestamp), rest))
        }
        3 => {
            let (snapshot, rest) = read_snapshot(rest)?;
            Ok((Metadata::Snapshot(snapshot), rest))
        }
        4 => {
            let (targets, rest) = read_targets(rest)?;
            Ok((Metadata::Targets(targets), rest))
        }
        _ => Err(Fault::Malformed),
    }
}

/// The paper whose bytes these are, all of them.
pub fn metadata_in(bytes: &[u8]) -> Result<Metadata<'_>, Fault>
    ensures answer { Is metadata_of result (paper_in bytes.now) }
    ensures form { IfOk result (λ m. WellFormed (metadata_of m) × (bytes_of_paper (metadata_of m) ≡ bytes.now)) }
{
    let (paper, rest) = read_metadata(bytes)?;
    if !rest.is_empty() {
        return Err(Fault::Malformed);
    }
    Ok(paper)
}

/// Bytes are accepted exactly if they are the writing of a well-formed paper, and of one only.
pub fn one_form_stands() -> u8
    ensures { OneForm }
{
    0
}

/// Well-formed papers have what the law's promises speak of.
pub fn soundness_stands() -> u8
    ensures { WellFormedSound }
{
    0
}
