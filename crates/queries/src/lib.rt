//! Queries as bytes: the table by tag, the check, and the reading of an admitted query.

#![tactic(auto)]

pub mod check;
pub mod criterion;
pub mod data;
pub mod item;
pub mod path;
pub mod stage;
pub mod table;
