//! Tests of the stand-in, of reading a signatures part, and of counting.
#![tactic(auto)]

#[cfg(test)]
mod cases;
