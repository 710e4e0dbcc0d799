//! Signatures: the scheme as a trait, a stand-in for tests, the part of an offer that has them, and counting keys for a quorum.
#![tactic(auto)]

pub mod counting;
pub mod part;
pub mod stand_in;
pub mod verifier;
