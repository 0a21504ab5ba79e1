//! The array that enters a group, arranged class by class.

#![tactic(auto)]

pub mod arrange;
