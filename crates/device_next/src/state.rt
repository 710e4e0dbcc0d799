//! What a box keeps.
use crate::kept::{Kept, ROOT, SNAPSHOT, TARGETS, TIMESTAMP};
use calendar::Calendar;
use journal::journal::Journal;

/// The bytes of its papers, the latest taken targets first, the journal and the day.
#[derive(Drop)]
pub struct Device {
    pub(crate) root: Kept<ROOT>,
    pub(crate) timestamp: Option<Kept<TIMESTAMP>>,
    pub(crate) snapshot: Option<Kept<SNAPSHOT>>,
    pub(crate) targets: Vec<Kept<TARGETS>>,
    pub(crate) journal: Journal,
    pub(crate) calendar: Calendar,
}
