//! One tree through the stages of a stretch, depth first, and the collector of what leaves it.

#![tactic(auto)]

pub mod collector;
pub mod feed;
