//! The journal: each paper that was taken, with the quorum that was asked for, the signatures that were counted, and the day.
#![tactic(auto)]

mod entry;
pub mod journal;
pub mod notes;
pub mod row;
