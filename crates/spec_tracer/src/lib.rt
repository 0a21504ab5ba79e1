//! Messages of tracers, and the tree that one becomes: definitions and the theorems that follow from them alone.

#![tactic(auto)]
