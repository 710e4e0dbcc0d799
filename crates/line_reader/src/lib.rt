//! Lines of text, read.
#![tactic(auto)]

pub mod path;
pub mod reader;
pub mod value;
