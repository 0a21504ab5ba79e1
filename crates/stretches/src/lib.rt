//! The stretches of a run, one after another.

#![tactic(auto)]

pub mod all;
pub mod ended;
pub mod later;
