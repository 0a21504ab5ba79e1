//! Totals: the integer roots that a path gives over an array, added exactly, and their sum as a tree.

#![tactic(auto)]

pub mod exact;
pub mod over;
pub mod sum;
pub mod write;
