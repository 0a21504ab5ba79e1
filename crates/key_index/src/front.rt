//! How far the array at the front of the work area is filled, or read.

/// Where the next tree of the array stands, and how many stand before it.
#[derive(Clone, Copy)]
pub struct Reached {
    pub to: usize,
    pub count: usize,
}
