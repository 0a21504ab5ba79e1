//! The text of the test rows: lines, bytes written as text, and what stands in a row. It knows nothing of the engine.

#![tactic(auto)]

pub mod lines;
pub mod notation;
pub mod row;
