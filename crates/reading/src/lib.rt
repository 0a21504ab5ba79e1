//! Reading into a buffer of a fixed size, which the programs do.

#![tactic(auto)]

pub mod full;
