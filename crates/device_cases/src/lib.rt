//! Tests of the box: papers by their bytes, signed with the stand-in, through its public calls.
#![tactic(auto)]

#[cfg(test)]
mod cases;
#[cfg(test)]
mod papers;
