//! The C interface alone: each slice is a pointer and a length, and an answer is one number.
//! A maker links `libtquery.a`, which is this library's archive; the calls stand in `include/tquery.h`.

#![tactic(auto)]

pub mod exports;
