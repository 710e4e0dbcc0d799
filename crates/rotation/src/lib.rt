//! New roots: which one may follow the present one, and what it makes forgotten.
#![tactic(auto)]

ghost use Rattle.std.specs.Prelude.{[], ◌∷◌, ◌≡◌, ◌+◌, eqb};
ghost use Rattle.model.specs.Taking.{must, stays as stays_of};
ghost use Rattle.model.specs.declared.fault.Fault.TheVariants.{NotEnough, NotNext};
ghost use Rattle.metadata.specs.Views.{root_of};
ghost use Rattle.judging.specs.Verdicts.{Verdict};

use judging::must;
use metadata::root::Root;
use model::fault::Fault;
use wire::quorum::same_quorum;

/// Whether a root is one version on.
pub fn is_next(present: Root<'_>, offered: Root<'_>) -> bool
    ensures { result ≡ eqb offered.entry.version (present.entry.version + 1) }
{
    offered.version as u64 == present.version as u64 + 1
}

/// Judges a root, with the lowest number of what speaks against it; `enough` and `own` say whether its signers are enough for the
/// present root and for itself.
pub fn check_root(
    present: Root<'_>,
    offered: Root<'_>,
    enough: bool,
    own: bool,
) -> Result<(), Fault>
    ensures { Verdict (must enough NotEnough ∷ must own NotNext ∷ must (eqb offered.entry.version (present.entry.version + 1)) NotNext ∷ []) result }
{
    must(enough, Fault::NotEnough)?;
    must(own, Fault::NotNext)?;
    must(is_next(present, offered), Fault::NotNext)
}

/// Whether timestamp and snapshot stay under a new root: both their quorums are the same as before.
pub fn stays(present: Root<'_>, offered: Root<'_>) -> bool
    ensures { result ≡ stays_of (root_of present.entry) (root_of offered.entry) }
{
    same_quorum(offered.timestamp, present.timestamp)
        && same_quorum(offered.snapshot, present.snapshot)
}
