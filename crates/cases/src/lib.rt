//! What the test programs share: a case, its call of the engine, and whether all that is seen of it is as expected.

#![tactic(auto)]

pub mod comparing;
pub mod position_area;
pub mod report;
pub mod trial;
pub mod verdict;
