//! The text of papers, one field a line, in the users' words.
#![tactic(auto)]

pub mod paper;
