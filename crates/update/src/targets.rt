//! Taking targets.
ghost use Rattle.std.specs.Prelude.{◌≡◌, true, [], ◌∷◌, is_some, nat_eq};
ghost use Rattle.std.specs.Option.{option_map};
ghost use Rattle.model.specs.Lists.{first};
ghost use Rattle.model.specs.Taking.{must, in_time, current};
ghost use Rattle.model.specs.declared.fault.Fault.TheVariants.{NotEnough, NotListed, NotDelegated, Expired};
ghost use Rattle.wire.specs.Views.{quorum_of};
ghost use Rattle.metadata.specs.Views.{snapshot_of, delegations_of, targets_of};
ghost use Rattle.judging.specs.Verdicts.{Verdict};
ghost use Rattle.update.specs.Asked.{if_asked};

use crate::snapshot::version_of;
use crate::timestamp::in_time;
use judging::must;
use metadata::snapshot::Snapshot;
use metadata::targets::{Delegations, Targets};
use model::fault::Fault;
use wire::quorum::Quorum;
use wire::table::Table;

/// Whether targets have the version that the snapshot gives for their role.
pub fn is_current(snapshot: Option<Snapshot<'_>>, targets: Targets<'_>) -> bool
    ensures { result ≡ current (option_map snapshot_of snapshot.entry) (targets_of targets.entry) }
{
    snapshot
        .and_then(|snapshot| version_of(snapshot.metas, targets.role))
        .is_some_and(|version| targets.version == version)
}

/// The quorum of the first delegation to a role.
pub fn quorum_in(mut delegations: Table<'_, Delegations>, role: u16) -> Option<Quorum<'_>>
    ensures { option_map quorum_of result ≡ option_map (λ d. d.quorum) (first (λ d. nat_eq role d.role) (delegations_of delegations.entry)) }
{
    delegations
        .find(|delegation| delegation.role == role)
        .map(|delegation| delegation.quorum)
}

/// Judges targets, with the lowest number of what speaks against them; `enough` is absent where no quorum is known for their role.
pub fn check_targets(
    offered: Targets<'_>,
    snapshot: Option<Snapshot<'_>>,
    today: u64,
    enough: Option<bool>,
) -> Result<(), Fault>
    ensures { Verdict (must (if_asked enough) NotEnough ∷ must (current (option_map snapshot_of snapshot.entry) (targets_of offered.entry)) NotListed ∷ must (is_some enough) NotDelegated ∷ must (in_time today offered.entry.expires) Expired ∷ []) result }
{
    must(enough != Some(false), Fault::NotEnough)?;
    must(is_current(snapshot, offered), Fault::NotListed)?;
    must(enough.is_some(), Fault::NotDelegated)?;
    must(in_time(today, offered.expires), Fault::Expired)
}
