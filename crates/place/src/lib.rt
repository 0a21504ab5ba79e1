//! Place and keep, written into a lent area.

#![tactic(auto)]

pub mod keep;
pub mod place;
