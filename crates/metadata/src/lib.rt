//! The four papers as views over lent bytes, and reading them.
#![tactic(auto)]

pub mod contents;
pub mod paper;
pub mod root;
pub mod snapshot;
pub mod targets;
pub mod timestamp;
