//! Judging: tests in the order of their faults' numbers, of which the first that fails says why something is refused.
#![tactic(auto)]

ghost use Rattle.std.specs.Prelude.{[], ◌∷◌};
ghost use Rattle.model.specs.Taking.{must};
ghost use Rattle.judging.specs.Verdicts.{Verdict};

use model::fault::Fault;

/// One test, with the fault that shows where it fails.
pub fn must(holds: bool, fault: Fault) -> Result<(), Fault>
    ensures { Verdict (must holds fault ∷ []) result }
{
    if holds { Ok(()) } else { Err(fault) }
}
