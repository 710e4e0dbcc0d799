//! Lines of text: how they are written, and what was expected where one is bad.
#![tactic(auto)]

pub mod expected;
pub mod kind;
pub mod writer;
