//! A tree built in a lent area from parts, each tested on its own and after the merge.

#![tactic(auto)]

pub mod behind;
pub mod build;
pub mod part;
