//! Taking timestamps.
ghost use Rattle.std.specs.Prelude.{◌≡◌, Ok as Reads};
ghost use Rattle.model.specs.Metadata.{ATimestamp};
ghost use Rattle.metadata.specs.Papers.{paper_in};
ghost use Rattle.metadata.specs.Views.{timestamp_of};
ghost use Rattle.judging.specs.Verdicts.{Verdict};
ghost use Rattle.device_next.specs.Steps.{timestamp_faults, TimestampStep};
ghost use Rattle.device_next.specs.Stops.{MatchStop};
ghost use Rattle.device_next.specs.Views.{holding_of};

use crate::kept::Kept;
use crate::read::Paper;
use crate::state::Device;
use crate::stop::Stop;
use journal::notes::{Backing, Taken};
use judging::must;
use metadata::root::Root;
use metadata::timestamp::Timestamp;
use model::fault::Fault;
use signature::counting::Signed;
use signature::verifier::Verifier;
use std::alloc::Global;
use update::timestamp::check_timestamp;

impl Device {
    /// Judges a timestamp, with the lowest number of what speaks against it.
    fn judge_timestamp(
        &self,
        offered: Timestamp<'_>,
        paper: &[u8],
        enough: bool,
    ) -> Result<(), Fault>
        ensures { Verdict (timestamp_faults enough (timestamp_of offered.entry) paper.now (holding_of self.now)) result }
    {
        let today = self.calendar.today();
        check_timestamp(offered, self.timestamp(), today, enough)?;
        must(
            self.journal.has_room(self.root().timestamp, paper),
            Fault::Full,
        )
    }

    /// A timestamp is offered, which was read from these bytes.
    pub(crate) fn offer_timestamp<V: Verifier>(
        &mut self,
        heap: Global,
        signed: Signed<'_, V>,
        offered: Timestamp<'_>,
    ) -> Result<(), Stop>
        requires { paper_in signed.message.now ≡ Reads (ATimestamp (timestamp_of offered)) }
        ensures { MatchStop result (λ a. TimestampStep V.accepts (record { paper = signed.entry.message.now; signatures = signed.entry.signatures.items.now }) (timestamp_of offered.entry) (holding_of self.old) a (holding_of self.new)) (holding_of self.new ≡ holding_of self.old) }
    {
        let counted = signed.count(heap, self.root().timestamp)?;
        self.judge_timestamp(offered, signed.message, counted.is_enough())?;
        let kept = Kept::copy(heap, signed.message, signed.signatures)?;
        let taken = Taken {
            day: self.calendar.today(),
            paper: signed.message,
        };
        let quorum = Root::of(&self.root).timestamp;
        let backing = Backing {
            quorum,
            signatures: &counted.signatures,
        };
        self.journal.note(heap, backing, taken)?;
        self.timestamp = Some(kept);
        Ok(())
    }
}
