//! Bytes compared, eight a step.

#![tactic(auto)]

pub mod compare;
mod words;
