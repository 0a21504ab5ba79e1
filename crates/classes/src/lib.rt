//! The classes of an arranged array: where each ends, and whether their totals fit.

#![tactic(auto)]

pub mod fit;
pub mod read;
