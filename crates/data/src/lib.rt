//! The value of data, written into a lent area: paths, literals, lists, tests, choices, reduced.

#![tactic(auto)]

pub mod data;
pub mod integer;
