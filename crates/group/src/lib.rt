//! The tree that a group makes of a class.

#![tactic(auto)]

pub mod class;
