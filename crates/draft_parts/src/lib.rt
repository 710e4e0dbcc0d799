//! Parts of papers, from text to bytes.
#![tactic(auto)]

pub mod index;
pub mod quorum;
pub mod stop;
pub mod table;
