//! Bare trees, written: a tree of a root alone.

#![tactic(auto)]

pub mod integer;
pub mod root;
