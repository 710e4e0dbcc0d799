//! Taking targets.
ghost use Rattle.std.specs.Prelude.{◌≡◌, IfOk, Some as Given, Ok as Reads};
ghost use Rattle.std.specs.Option.{option_map};
ghost use Rattle.model.specs.Metadata.{ATargets};
ghost use Rattle.journal.specs.Table.{row_of};
ghost use Rattle.wire.specs.Views.{quorum_of};
ghost use Rattle.metadata.specs.Papers.{paper_in};
ghost use Rattle.metadata.specs.Views.{targets_of};
ghost use Rattle.judging.specs.Verdicts.{Verdict};
ghost use Rattle.device_next.specs.Steps.{snapshot_in, delegated_in, asked_for, targets_faults, TargetsStep};
ghost use Rattle.device_next.specs.Stops.{MatchStop};
ghost use Rattle.device_next.specs.Views.{holding_of};

use crate::kept::Kept;
use crate::read::Paper;
use crate::sift::drop_role;
use crate::state::Device;
use crate::stop::Stop;
use journal::notes::{Backing, Taken};
use journal::row::Row;
use judging::must;
use metadata::targets::Targets;
use model::fault::Fault;
use signature::counting::Signed;
use signature::verifier::Verifier;
use std::alloc::{AllocError, Global};
use update::targets::{check_targets, is_current, quorum_in};
use wire::quorum::Quorum;

impl Device {
    /// The quorum of the first delegation to a role in current targets, the latest taken first.
    fn delegated_quorum(&self, role: u16) -> Option<Quorum<'_>>
        ensures { option_map quorum_of result ≡ delegated_in (snapshot_in (holding_of self.now)) role (holding_of self.now).targets }
    {
        // A loop: no lemma turns what `find_map` ensures over `filter` into the answer for a list.
        for kept in &self.targets {
            let targets = Targets::of(kept);
            if is_current(self.snapshot(), targets) {
                if let Some(quorum) = quorum_in(targets.delegations, role) {
                    return Some(quorum);
                }
            }
        }
        None
    }

    /// The quorum that is asked for a role's targets, if one is known: role 0 is the root's own.
    pub fn quorum_for(&self, role: u16) -> Option<Quorum<'_>>
        ensures { option_map quorum_of result ≡ asked_for (holding_of self.now) role }
    {
        if role == 0 {
            return Some(self.root().top);
        }
        self.delegated_quorum(role)
    }

    /// A copy of that quorum, which stays while the device changes.
    fn copy_quorum(&self, heap: Global, role: u16) -> Result<Option<Row>, AllocError>
        ensures { IfOk result (λ o. option_map row_of o ≡ asked_for (holding_of self.now) role) }
    {
        self.quorum_for(role)
            .map(|quorum| Row::copy(heap, quorum))
            .transpose()
    }

    /// Judges targets for which a quorum is known, with the lowest number of what speaks against them.
    fn judge_targets(
        &self,
        offered: Targets<'_>,
        paper: &[u8],
        quorum: Quorum<'_>,
        enough: bool,
    ) -> Result<(), Fault>
        ensures { asked_for (holding_of self.now) offered.entry.role ≡ Given (quorum_of quorum.entry) → Verdict (targets_faults (Given enough) (targets_of offered.entry) paper.now (holding_of self.now)) result }
    {
        let today = self.calendar.today();
        check_targets(offered, self.snapshot(), today, Some(enough))?;
        must(self.journal.has_room(quorum, paper), Fault::Full)
    }

    /// Targets are offered, which were read from these bytes.
    pub(crate) fn offer_targets<V: Verifier>(
        &mut self,
        heap: Global,
        signed: Signed<'_, V>,
        offered: Targets<'_>,
    ) -> Result<(), Stop>
        requires { paper_in signed.message.now ≡ Reads (ATargets (targets_of offered)) }
        ensures { MatchStop result (λ a. TargetsStep V.accepts (record { paper = signed.entry.message.now; signatures = signed.entry.signatures.items.now }) (targets_of offered.entry) (holding_of self.old) a (holding_of self.new)) (holding_of self.new ≡ holding_of self.old) }
    {
        let Some(asked) = self.copy_quorum(heap, offered.role)? else {
            if is_current(self.snapshot(), offered) {
                return Err(Stop::Refused(Fault::NotDelegated));
            }
            return Err(Stop::Refused(Fault::NotListed));
        };
        let counted = signed.count(heap, asked.quorum())?;
        self.judge_targets(offered, signed.message, asked.quorum(), counted.is_enough())?;
        let kept = Kept::copy(heap, signed.message, signed.signatures)?;
        let taken = Taken {
            day: self.calendar.today(),
            paper: signed.message,
        };
        let quorum = asked.quorum();
        let backing = Backing {
            quorum,
            signatures: &counted.signatures,
        };
        self.targets.reserve(1)?;
        self.journal.note(heap, backing, taken)?;
        drop_role(&mut self.targets, offered.role);
        self.targets.insert(0, kept).unwrap();
        Ok(())
    }
}
