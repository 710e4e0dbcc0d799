//! A new box.
ghost use Rattle.metadata.specs.Papers.{paper_in};
ghost use Rattle.device_next.specs.Starts.{Started, StartsReached, first_fault_of};
ghost use Rattle.device_next.specs.Stops.{MatchStop};

use crate::kept::Kept;
use crate::state::Device;
use crate::stop::Stop;
use calendar::Calendar;
use journal::journal::Journal;
use metadata::paper::{Metadata, metadata_in};
use model::fault::Fault;
use signature::part::Signatures;
use std::alloc::Global;

impl Device {
    /// A box that is made with a first root, by its bytes. Nobody has to have signed it; it is where trust begins.
    pub fn new(heap: Global, root: &[u8]) -> Result<Device, Stop>
        ensures bytes { MatchStop result (λ d. Started (first_fault_of (paper_in root.now)) root.now d) (Unit {0}) }
        ensures reached { MatchStop result (λ d. StartsReached root.now d) (Unit {0}) }
    {
        Device::make(heap, root)
    }

    // Apart from `new`: its second promise is proved from the first.
    fn make(heap: Global, root: &[u8]) -> Result<Device, Stop>
        ensures { MatchStop result (λ d. Started (first_fault_of (paper_in root.now)) root.now d) (Unit {0}) }
    {
        let Metadata::Root(_) = metadata_in(root)? else {
            return Err(Stop::Refused(Fault::Malformed));
        };
        let signatures = Signatures { items: &[] };
        let root = Kept::copy(heap, root, signatures)?;
        Ok(Device {
            root,
            timestamp: None,
            snapshot: None,
            targets: Vec::new(heap),
            journal: Journal::new(heap),
            calendar: Calendar::new(),
        })
    }
}
