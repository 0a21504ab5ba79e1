//! The field-format crate: fields, trees and arrays as bytes. One idea in each file.

#![tactic(auto)]

pub mod check;
pub mod depth;
pub mod fields;
pub mod head;
pub mod labels;
pub mod limits;
pub mod view;
