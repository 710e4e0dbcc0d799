//! The box: what it keeps, and what it makes of each offer and each day.
#![tactic(auto)]

pub mod kept;
pub mod offer;
pub mod read;
mod root;
mod sift;
mod snapshot;
pub mod start;
pub mod state;
pub mod stop;
mod targets;
mod timestamp;
