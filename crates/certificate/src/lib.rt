//! Conditions 2 and 3 of document 01, said of the code: small functions that only call `run`, and whose promises are
//! the conditions' sentences. Their proofs know of `run` nothing but its promise.

#![tactic(auto)]

pub mod alone;
pub mod cut;
