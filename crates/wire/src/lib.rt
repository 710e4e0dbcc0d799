//! Formats as a grammar, and the leaves: numbers, keys, quorums, paths.
#![tactic(auto)]

pub mod key;
pub mod number;
pub mod path;
pub mod quorum;
pub mod table;
