//! Two arrays joined and grouped again.

#![tactic(auto)]

pub mod join;
pub mod joined_group;
