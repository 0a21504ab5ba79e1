//! The public calls in Rattle. `spec_run` has the plain run, which the streamed run answers as, and the theorems.

#![tactic(auto)]

pub mod answer;
pub mod regroup;
pub mod run;
