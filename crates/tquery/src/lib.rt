//! The calls of `include/tquery.h` as functions of Rattle: an answer is one number. `tquery_c` exports them to C.

#![tactic(auto)]

pub mod interface;
