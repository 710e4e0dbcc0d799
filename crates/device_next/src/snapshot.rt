//! Taking snapshots.
ghost use Rattle.std.specs.Prelude.{◌≡◌, Ok as Reads};
ghost use Rattle.model.specs.Metadata.{ASnapshot};
ghost use Rattle.metadata.specs.Papers.{paper_in};
ghost use Rattle.metadata.specs.Views.{snapshot_of};
ghost use Rattle.judging.specs.Verdicts.{Verdict};
ghost use Rattle.device_next.specs.Steps.{snapshot_faults, SnapshotStep};
ghost use Rattle.device_next.specs.Stops.{MatchStop};
ghost use Rattle.device_next.specs.Views.{holding_of};

use crate::kept::Kept;
use crate::read::Paper;
use crate::sift::keep_listed;
use crate::state::Device;
use crate::stop::Stop;
use digest::sha256;
use journal::notes::{Backing, Taken};
use judging::must;
use metadata::root::Root;
use metadata::snapshot::Snapshot;
use model::fault::Fault;
use signature::counting::Signed;
use signature::verifier::Verifier;
use std::alloc::Global;
use update::snapshot::check_snapshot;

impl Device {
    /// Judges a snapshot, with the lowest number of what speaks against it.
    fn judge_snapshot(&self, offered: Snapshot<'_>, paper: &[u8], enough: bool) -> Result<(), Fault>
        ensures { Verdict (snapshot_faults enough (snapshot_of offered.entry) paper.now (holding_of self.now)) result }
    {
        let digest = sha256(paper);
        let today = self.calendar.today();
        check_snapshot(
            offered,
            &digest,
            self.timestamp(),
            self.snapshot(),
            today,
            enough,
        )?;
        must(
            self.journal.has_room(self.root().snapshot, paper),
            Fault::Full,
        )
    }

    /// A snapshot is offered, which was read from these bytes.
    pub(crate) fn offer_snapshot<V: Verifier>(
        &mut self,
        heap: Global,
        signed: Signed<'_, V>,
        offered: Snapshot<'_>,
    ) -> Result<(), Stop>
        requires { paper_in signed.message.now ≡ Reads (ASnapshot (snapshot_of offered)) }
        ensures { MatchStop result (λ a. SnapshotStep V.accepts (record { paper = signed.entry.message.now; signatures = signed.entry.signatures.items.now }) (snapshot_of offered.entry) (holding_of self.old) a (holding_of self.new)) (holding_of self.new ≡ holding_of self.old) }
    {
        // As for a timestamp, in lines of its own: one function for both would be no plainer, since the quorum is lent from the root while
        // the journal is written, so that it would take each part of the box by itself.
        let counted = signed.count(heap, self.root().snapshot)?;
        self.judge_snapshot(offered, signed.message, counted.is_enough())?;
        let kept = Kept::copy(heap, signed.message, signed.signatures)?;
        let taken = Taken {
            day: self.calendar.today(),
            paper: signed.message,
        };
        let quorum = Root::of(&self.root).snapshot;
        let backing = Backing {
            quorum,
            signatures: &counted.signatures,
        };
        self.journal.note(heap, backing, taken)?;
        keep_listed(&mut self.targets, offered);
        self.snapshot = Some(kept);
        Ok(())
    }
}
