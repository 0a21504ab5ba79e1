//! The lines of a tracer's message: read, checked, and where the values of the seven names stand.

#![tactic(auto)]

pub mod bytes;
pub mod label;
pub mod limits;
pub mod line;
pub mod places;
