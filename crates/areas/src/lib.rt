//! Bytes in lent areas: copying, heads, clearing, numbers of several bytes.

#![tactic(auto)]

pub mod area;
pub mod number;
pub mod span;
