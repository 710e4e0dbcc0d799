//! The rules by which a device takes timestamps, snapshots and targets. Who signed is a given fact here.
#![tactic(auto)]

pub mod snapshot;
pub mod targets;
pub mod timestamp;
