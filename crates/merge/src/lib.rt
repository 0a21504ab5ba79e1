//! The merge of two trees, written into a lent area.

#![tactic(auto)]

pub mod merge;
