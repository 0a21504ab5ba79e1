//! What a position area should hold after a call, entry by entry. It is full of 43690 before.

/// The number that fills the area before a call.
pub const FILLED: u16 = 43690;

/// Whether the area begins with the positions that are expected, which stand in two bytes each, and all entries behind
/// them are `rest`.
pub fn entries_are(area: &[u16], expected: &[u8], rest: usize) -> bool {
    let (expected, _) = expected.as_chunks::<2>();
    let Some((front, behind)) = area.split_at_checked(expected.len()) else {
        return false;
    };
    front
        .iter()
        .zip(expected)
        .all(|(entry, bytes)| *entry == u16::from_be_bytes(*bytes))
        && behind.iter().all(|entry| usize::from(*entry) == rest)
}
