//! What a lookup makes of a tree, built in a lent area.

#![tactic(auto)]

pub mod lookup;
pub mod matching;
