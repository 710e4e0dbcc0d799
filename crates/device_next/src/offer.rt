//! Offers of any kind, and days: each is one step of the law.
ghost use Rattle.std.specs.Prelude.{◌≡◌, ℕ, Bool, List};
ghost use Rattle.metadata.specs.Papers.{paper_in};
ghost use Rattle.model.specs.Metadata.{Key, Root};
ghost use Rattle.model.specs.Run.{Begins, step};
ghost use Rattle.model.specs.World.{Reached};
ghost use Rattle.signature.specs.Signatures.{Accepts};
ghost use Rattle.wire.specs.Formats.{Bytes};
ghost use Rattle.device_next.specs.Holding.{device_of, snapshot_digest};
ghost use Rattle.device_next.specs.Offers.{offered_bytes, outcome_of, world_of, Promised};
ghost use Rattle.device_next.specs.Steps.{OfferStep, DayStep};
ghost use Rattle.device_next.specs.Stops.{MatchStop};
ghost use Rattle.device_next.specs.Views.{held_in, holding_of};

use crate::state::Device;
use crate::stop::Stop;
use metadata::paper::{Metadata, metadata_in};
use model::answer::Answer;
use signature::counting::Signed;
use signature::part::Signatures;
use signature::verifier::Verifier;
use std::alloc::Global;
use stream::Offer;

impl Device {
    /// The same, by the kind of the paper. The paper comes apart: only of an argument that is a slice is it known that its items are
    /// bytes.
    #[tactic(auto, using(crate::proofs::Octets::octets))]
    fn take<V: Verifier>(
        &mut self,
        heap: Global,
        verifier: &V,
        paper: &[u8],
        signatures: Signatures<'_>,
    ) -> Result<(), Stop>
        ensures octets { Bytes paper.entry.now }
        ensures step { MatchStop result (λ a. OfferStep (paper_in paper.entry.now) V.accepts (record { paper = paper.entry.now; signatures = signatures.entry.items.now }) (holding_of self.old) a (holding_of self.new)) (holding_of self.new ≡ holding_of self.old) }
    {
        let signed = Signed {
            verifier,
            message: paper,
            signatures,
        };
        match metadata_in(paper)? {
            Metadata::Root(root) => self.offer_root(heap, signed, root),
            Metadata::Timestamp(timestamp) => self.offer_timestamp(heap, signed, timestamp),
            Metadata::Snapshot(snapshot) => self.offer_snapshot(heap, signed, snapshot),
            Metadata::Targets(targets) => self.offer_targets(heap, signed, targets),
        }
    }

    /// A paper is offered, by its bytes, with the signatures that came with it. What the box then is, and its answer, are those of
    /// the law; what is refused changes nothing, and no more does want of memory.
    pub fn offer<V: Verifier>(
        &mut self,
        heap: Global,
        verifier: &V,
        offer: Offer<'_>,
    ) -> Result<(), Stop>
        ensures bytes { MatchStop result (λ a. OfferStep (paper_in offer.entry.paper.now) V.accepts (held_in offer.entry) (holding_of self.old) a (holding_of self.new)) (holding_of self.new ≡ holding_of self.old) }
        ensures law { MatchStop result (λ a. offered_bytes V.accepts (held_in offer.entry) (device_of V.accepts (holding_of self.old)) ≡ outcome_of V.accepts a (holding_of self.new)) (device_of V.accepts (holding_of self.new) ≡ device_of V.accepts (holding_of self.old)) }
        ensures promises { (first : Root) → Reached (world_of V.signed) first (device_of V.accepts (holding_of self.old)) → Promised (world_of V.signed) first (device_of V.accepts (holding_of self.old)) (device_of V.accepts (holding_of self.new)) }
    {
        self.take(heap, verifier, offer.paper, offer.signatures)
    }

    /// A day begins, by its number.
    pub fn begin(&mut self, day: u64) -> Answer
        ensures bytes { DayStep day (holding_of self.old) result (holding_of self.new) }
        ensures law { (accepts : Accepts) → step snapshot_digest (Begins day) (device_of accepts (holding_of self.old)) ≡ outcome_of accepts result (holding_of self.new) }
        ensures promises { (accepts : Accepts) (signed : Key → List ℕ → Bool) (first : Root) → Reached (world_of signed) first (device_of accepts (holding_of self.old)) → Promised (world_of signed) first (device_of accepts (holding_of self.old)) (device_of accepts (holding_of self.new)) }
    {
        self.pass(day)
    }

    // Apart from `begin`: its other promises are proved from the first.
    fn pass(&mut self, day: u64) -> Answer
        ensures { DayStep day (holding_of self.old) result (holding_of self.new) }
    {
        self.calendar = self.calendar.begin(day)?;
        Ok(())
    }
}
