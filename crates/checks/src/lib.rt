//! The tests of the calls, before anything is changed.

#![tactic(auto)]

pub mod check;
