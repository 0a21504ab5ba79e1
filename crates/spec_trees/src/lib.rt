//! Trees, arrays and their byte form: definitions and the theorems that follow from them alone.

#![tactic(auto)]
