//! The end of a call: what it leaves in the areas, and its answer.

#![tactic(auto)]

pub mod finish;
pub mod lines;
