//! The refusals, the plain run, the cut and the program: definitions and the theorems that follow from them alone.

#![tactic(auto)]

pub mod answer;
