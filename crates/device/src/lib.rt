//! The box: its state, and what it makes of a stream of items.
#![tactic(auto)]

pub mod item;
pub mod run;
