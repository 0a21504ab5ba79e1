//! What a path gives of a tree, whether two paths give the same, and a number for an index, where the bytes stand.

#![tactic(auto)]

pub mod equality;
pub mod hash;
pub mod path;
