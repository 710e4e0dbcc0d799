//! The bytes of the four papers, written from their views.
#![tactic(auto)]

pub mod paper;
