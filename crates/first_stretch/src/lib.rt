//! The first stretch: the trees of the input, through the stages before the first group.

#![tactic(auto)]

pub mod first;
