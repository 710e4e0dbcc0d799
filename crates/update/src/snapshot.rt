//! Taking snapshots.
ghost use Rattle.std.specs.Prelude.{◌≡◌, [], ◌∷◌, is_some};
ghost use Rattle.std.specs.Option.{option_map};
ghost use Rattle.model.specs.Taking.{must, in_time, named, version_in, covers as covers_of, covers_kept};
ghost use Rattle.model.specs.declared.fault.Fault.TheVariants.{NotEnough, NotNamed, Regresses, Expired};
ghost use Rattle.metadata.specs.Views.{timestamp_of, metas_of, snapshot_of};
ghost use Rattle.judging.specs.Verdicts.{Verdict};

use crate::timestamp::in_time;
use judging::must;
use metadata::snapshot::{Metas, Snapshot};
use metadata::timestamp::Timestamp;
use model::fault::Fault;
use wire::key::{Bytes32, same_key};
use wire::table::Table;

/// Whether the kept timestamp names a snapshot, by its version and the digest of its bytes.
pub fn is_named(offered: Snapshot<'_>, digest: &Bytes32, timestamp: Option<Timestamp<'_>>) -> bool
    ensures { result ≡ named (λ _. digest.now) (snapshot_of offered.entry) (option_map timestamp_of timestamp.entry) }
{
    timestamp.is_some_and(|timestamp| {
        let named = timestamp.digest;
        timestamp.snapshot == offered.version && same_key(named, digest)
    })
}

/// The version that a snapshot gives for a role.
pub fn version_of(mut metas: Table<'_, Metas>, role: u16) -> Option<u32>
    ensures { result ≡ version_in role (metas_of metas.entry) }
{
    metas
        .find(|meta| meta.role == role)
        .map(|meta| meta.version)
}

/// Whether each role of the old versions has a new one that is not lower.
fn covers(new: Table<'_, Metas>, mut old: Table<'_, Metas>) -> bool
    ensures { result ≡ covers_of (metas_of new.entry) (metas_of old.entry) }
{
    old.all(|meta| version_of(new, meta.role).is_some_and(|version| meta.version <= version))
}

/// Whether nothing goes back: no role of the kept snapshot lacks or has a lower version, nor has the snapshot itself.
pub fn covers_old(offered: Snapshot<'_>, kept: Option<Snapshot<'_>>) -> bool
    ensures { result ≡ covers_kept (snapshot_of offered.entry) (option_map snapshot_of kept.entry) }
{
    // Stays a `match`: with `is_none_or` the proof did not close.
    match kept {
        Some(old) => covers(offered.metas, old.metas) && old.version <= offered.version,
        None => true,
    }
}

/// Judges a snapshot, with the lowest number of what speaks against it; `digest` is that of its bytes.
pub fn check_snapshot(
    offered: Snapshot<'_>,
    digest: &Bytes32,
    timestamp: Option<Timestamp<'_>>,
    kept: Option<Snapshot<'_>>,
    today: u64,
    enough: bool,
) -> Result<(), Fault>
    ensures { Verdict (must enough NotEnough ∷ must (named (λ _. digest.now) (snapshot_of offered.entry) (option_map timestamp_of timestamp.entry)) NotNamed ∷ must (covers_kept (snapshot_of offered.entry) (option_map snapshot_of kept.entry)) Regresses ∷ must (in_time today offered.entry.expires) Expired ∷ []) result }
{
    must(enough, Fault::NotEnough)?;
    must(is_named(offered, digest, timestamp), Fault::NotNamed)?;
    must(covers_old(offered, kept), Fault::Regresses)?;
    must(in_time(today, offered.expires), Fault::Expired)
}

/// Whether a snapshot lists a role; targets of other roles are dropped.
pub fn lists_role(snapshot: Snapshot<'_>, role: u16) -> bool
    ensures { result ≡ is_some (version_in role (snapshot_of snapshot.entry).metas) }
{
    version_of(snapshot.metas, role).is_some()
}
