//! Which targets stay kept.
ghost use Rattle.std.specs.Prelude.{◌≡◌, ◌≤◌, vec_len, vec_capacity, filter};
ghost use Rattle.metadata.specs.Views.{snapshot_of};
ghost use Rattle.device_next.specs.Steps.{listed, others, targets_in};
ghost use Rattle.device_next.specs.Views.{held_of};

use crate::kept::{Kept, TARGETS};
use crate::read::Paper;
use metadata::snapshot::Snapshot;
use metadata::targets::Targets;
use update::snapshot::lists_role;

/// The role of kept targets.
fn role_of(kept: &Kept<TARGETS>) -> u16
    ensures { result ≡ (targets_in (held_of kept.now)).role }
{
    Targets::of(kept).role
}

/// Drops the targets whose role a snapshot does not list.
pub(crate) fn keep_listed(targets: &mut Vec<Kept<TARGETS>>, snapshot: Snapshot<'_>)
    ensures { targets.new.items ≡ filter (λ k. listed (snapshot_of snapshot.entry) (held_of k)) targets.old.items }
{
    targets.retain(|kept| lists_role(snapshot, role_of(kept)));
}

/// Drops the targets of a role. There is as much room for others as before.
pub(crate) fn drop_role(targets: &mut Vec<Kept<TARGETS>>, role: u16)
    ensures room { (vec_len targets.new ≤ vec_len targets.old) × (vec_capacity targets.new ≡ vec_capacity targets.old) }
    ensures items { targets.new.items ≡ filter (λ k. others role (held_of k)) targets.old.items }
{
    targets.retain(|kept| role_of(kept) != role);
}
