//! The index by which the trees of the array that enters a group are found by their keys.

#![tactic(auto)]

pub mod enter;
pub mod front;
pub mod index;
