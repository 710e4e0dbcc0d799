//! Kept papers, read again from their bytes.
ghost use Rattle.std.specs.Prelude.{◌≡◌, ℕ, true, IfOk};
ghost use Rattle.std.specs.Option.{option_map};
ghost use Rattle.metadata.specs.Views.{metadata_of, root_of, timestamp_of, snapshot_of, targets_of};
ghost use Rattle.model.specs.Metadata.{Metadata as Plain};
ghost use Rattle.device_next.specs.Holding.{Held, as_root, as_timestamp, as_snapshot, as_targets, paper_of};
ghost use Rattle.device_next.specs.Kinds.{kind_of, reads_as};
ghost use Rattle.device_next.specs.Views.{held_of, holding_of};

use crate::kept::Kept;
use crate::state::Device;
use metadata::paper::{Metadata, metadata_in};
use metadata::root::Root;
use metadata::snapshot::Snapshot;
use metadata::targets::Targets;
use metadata::timestamp::Timestamp;
use signature::part::Signatures;
use std::alloc::{AllocError, Global};

impl<const KIND: u8> Kept<KIND> {
    /// A copy of a paper and its signatures, of a paper that is known to read. They come from what was signed, or without signatures.
    pub(crate) fn copy(
        heap: Global,
        paper: &[u8],
        signatures: Signatures<'_>,
    ) -> Result<Kept<KIND>, AllocError>
        requires { reads_as KIND paper.now ≡ true }
        ensures { IfOk result (λ k. held_of k ≡ record { paper = paper.entry.now; signatures = signatures.entry.items.now }) }
    {
        let paper = Vec::from_slice(heap, paper)?;
        let signatures = Vec::from_slice(heap, signatures.items)?;
        Ok(Kept { paper, signatures })
    }
}

/// What the bytes of a kind of paper are read as.
pub trait Paper<'a>: Sized {
    ghost kind: { ℕ };

    ghost stands_for: { Self → Plain → Type 0 };

    /// The paper, of metadata of this kind. Each type takes out a variant of its own.
    fn pick(metadata: Metadata<'a>) -> Self
        requires { kind_of (metadata_of metadata) ≡ kind }
        ensures { stands_for result (metadata_of metadata.entry) };

    /// What is kept, read again.
    final fn of<const KIND: u8>(kept: &'a Kept<KIND>) -> Self
        requires { KIND ≡ kind }
        ensures { stands_for result (paper_of kept.now.paper.items) }
    {
        match metadata_in(&kept.paper) {
            Ok(metadata) => Self::pick(metadata),
            Err(_) => unreachable(),
        }
    }
}

impl<'a> Paper<'a> for Root<'a> {
    ghost kind = { 1 };

    ghost stands_for = { λ r p. root_of r ≡ as_root p };

    fn pick(metadata: Metadata<'a>) -> Root<'a> {
        match metadata {
            Metadata::Root(root) => root,
            _ => unreachable(),
        }
    }
}

impl<'a> Paper<'a> for Timestamp<'a> {
    ghost kind = { 2 };

    ghost stands_for = { λ t p. timestamp_of t ≡ as_timestamp p };

    fn pick(metadata: Metadata<'a>) -> Timestamp<'a> {
        match metadata {
            Metadata::Timestamp(timestamp) => timestamp,
            _ => unreachable(),
        }
    }
}

impl<'a> Paper<'a> for Snapshot<'a> {
    ghost kind = { 3 };

    ghost stands_for = { λ x p. snapshot_of x ≡ as_snapshot p };

    fn pick(metadata: Metadata<'a>) -> Snapshot<'a> {
        match metadata {
            Metadata::Snapshot(snapshot) => snapshot,
            _ => unreachable(),
        }
    }
}

impl<'a> Paper<'a> for Targets<'a> {
    ghost kind = { 4 };

    ghost stands_for = { λ t p. targets_of t ≡ as_targets p };

    fn pick(metadata: Metadata<'a>) -> Targets<'a> {
        match metadata {
            Metadata::Targets(targets) => targets,
            _ => unreachable(),
        }
    }
}

impl Device {
    /// The root that counts now.
    pub(crate) fn root(&self) -> Root<'_>
        ensures { root_of result ≡ as_root (paper_of (holding_of self.now).root.paper) }
    {
        Root::of(&self.root)
    }

    /// The kept timestamp, if there is one.
    pub fn timestamp(&self) -> Option<Timestamp<'_>>
        ensures { option_map timestamp_of result ≡ option_map (λ h. as_timestamp (paper_of h.paper)) (holding_of self.now).timestamp }
    {
        self.timestamp.as_ref().map(|kept| Timestamp::of(kept))
    }

    /// The kept snapshot, if there is one.
    pub fn snapshot(&self) -> Option<Snapshot<'_>>
        ensures { option_map snapshot_of result ≡ option_map (λ h. as_snapshot (paper_of h.paper)) (holding_of self.now).snapshot }
    {
        self.snapshot.as_ref().map(|kept| Snapshot::of(kept))
    }
}
