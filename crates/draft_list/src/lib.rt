//! Papers of the kind list, from text to bytes.
#![tactic(auto)]

pub mod list;
