//! Texts with one line changed, refused at that line or accepted, and texts that are cut.
#![tactic(auto)]

#[cfg(test)]
mod cases;
