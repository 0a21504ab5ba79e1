//! A group and the stages behind it, over the classes of an array.

#![tactic(auto)]

pub mod regroup;
