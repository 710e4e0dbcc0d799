//! Taking roots.
ghost use Rattle.std.specs.Prelude.{◌≡◌, Ok as Reads};
ghost use Rattle.model.specs.Metadata.{ARoot};
ghost use Rattle.metadata.specs.Papers.{paper_in};
ghost use Rattle.metadata.specs.Views.{root_of};
ghost use Rattle.judging.specs.Verdicts.{Verdict};
ghost use Rattle.device_next.specs.Steps.{root_faults, RootStep};
ghost use Rattle.device_next.specs.Stops.{MatchStop};
ghost use Rattle.device_next.specs.Views.{holding_of};

use crate::kept::Kept;
use crate::read::Paper;
use crate::state::Device;
use crate::stop::Stop;
use journal::notes::{Backing, Taken};
use judging::must;
use metadata::root::Root;
use model::fault::Fault;
use rotation::{check_root, stays};
use signature::counting::Signed;
use signature::verifier::Verifier;
use std::alloc::Global;

impl Device {
    /// Judges a root, with the lowest number of what speaks against it.
    fn judge_root(&self, offered: Root<'_>, enough: bool, own: bool) -> Result<(), Fault>
        ensures { Verdict (root_faults enough own (root_of offered.entry) (holding_of self.now)) result }
    {
        let present = self.root();
        check_root(present, offered, enough, own)?;
        must(
            self.journal.has_room_for_root(present.root, offered.root),
            Fault::Full,
        )
    }

    /// A root is offered, which was read from these bytes.
    pub(crate) fn offer_root<V: Verifier>(
        &mut self,
        heap: Global,
        signed: Signed<'_, V>,
        offered: Root<'_>,
    ) -> Result<(), Stop>
        requires { paper_in signed.message.now ≡ Reads (ARoot (root_of offered)) }
        ensures { MatchStop result (λ a. RootStep V.accepts (record { paper = signed.entry.message.now; signatures = signed.entry.signatures.items.now }) (root_of offered.entry) (holding_of self.old) a (holding_of self.new)) (holding_of self.new ≡ holding_of self.old) }
    {
        let old = signed.count(heap, self.root().root)?;
        let own = signed.count(heap, offered.root)?;
        self.judge_root(offered, old.is_enough(), own.is_enough())?;
        let kept = Kept::copy(heap, signed.message, signed.signatures)?;
        let keeps = stays(self.root(), offered);
        let taken = Taken {
            day: self.calendar.today(),
            paper: signed.message,
        };
        let quorum = Root::of(&self.root).root;
        let before = Backing {
            quorum,
            signatures: &old.signatures,
        };
        let after = Backing {
            quorum: offered.root,
            signatures: &own.signatures,
        };
        self.journal.note_root(heap, before, after, taken)?;
        self.root = kept;
        if keeps {
            return Ok(());
        }
        self.timestamp = None;
        self.snapshot = None;
        Ok(())
    }
}
