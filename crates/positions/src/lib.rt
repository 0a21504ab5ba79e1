//! The positions that the collected trees bear.

#![tactic(auto)]

pub mod bear;
pub mod entries;
