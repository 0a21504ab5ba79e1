//! What a project makes of a tree, built in a lent area.

#![tactic(auto)]

pub mod project;
