//! What all stretches share: the next group of a query, and the positions of the trees that were collected.

#![tactic(auto)]

pub mod mark;
pub mod next;
