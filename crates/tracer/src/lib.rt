//! The call that makes an array of a tracer's message.

#![tactic(auto)]

pub mod trace;
