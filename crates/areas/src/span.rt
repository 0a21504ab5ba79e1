//! A place as a value.

/// A part of an area, from its first byte to behind its last: a field, or fields one behind another; or the room from
/// where a writer writes to where it must stop.
#[derive(Clone, Copy)]
pub struct Span {
    pub from: usize,
    pub to: usize,
}
