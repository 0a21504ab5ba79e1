//! The keys of trees: what the grouping pairs give of each.

#![tactic(auto)]

pub mod key;
