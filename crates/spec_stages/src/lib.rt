//! What a tree or a list of trees becomes in a stage: definitions and the theorems that follow from them alone.

#![tactic(auto)]
