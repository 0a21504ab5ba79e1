//! The tree that a tracer's message becomes, written as an array of it alone.

#![tactic(auto)]

pub mod array;
pub mod labels;
pub mod number;
pub mod values;
