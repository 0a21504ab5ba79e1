//! The outcomes of an unwind, written into a lent area.

#![tactic(auto)]

pub mod unwind;
