//! Whether a tree meets a criterion, where both stand.

#![tactic(auto)]

pub mod criteria;
