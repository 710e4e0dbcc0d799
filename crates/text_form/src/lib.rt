//! Which text stands for which paper.
#![tactic(auto)]

pub mod form;
