//! Where the parts of the work area stand.

#![tactic(auto)]

pub mod map;
