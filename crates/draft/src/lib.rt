//! From the text of a paper to its bytes.
#![tactic(auto)]

pub mod paper;
