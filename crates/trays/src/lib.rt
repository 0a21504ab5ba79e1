//! Trays: which query is a group whose tray results can be grouped again, and the pairs that do it.

#![tactic(auto)]

pub mod again;
pub mod tray_group;
