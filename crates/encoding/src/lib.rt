//! The leaves of papers, written behind what a vector holds.
#![tactic(auto)]

pub mod leaf;
