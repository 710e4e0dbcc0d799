//! What a box makes of a stream of items.
#![tactic(auto)]

pub mod run;
