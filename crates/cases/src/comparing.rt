//! The engine's comparing, tried on a stretch of bytes: beside its copy, and beside what differs from it in one byte or
//! in its length.
use crate::verdict::{Difference, Verdict};
use compare::compare::compare;

/// Whether two stretches are told apart, in at most so many steps.
fn told_apart(one: &[u8], other: &[u8], most: usize) -> bool {
    let found = compare(one, other);
    !found.same && found.steps <= most
}

/// Whether a change at each place of the copy, of the highest bit, is found.
fn changes_found(stretch: &[u8], copy: &mut [u8], most: usize) -> bool {
    for i in 0..copy.len() {
        copy[i] ^= 128;
        if !told_apart(stretch, copy, most) {
            return false;
        }
        copy[i] ^= 128;
    }
    true
}

/// Whether it is found that the last byte is missing, on either side.
fn end_found(stretch: &[u8], most: usize) -> bool {
    let Some((_, shorter)) = stretch.split_last() else {
        return true;
    };
    told_apart(stretch, shorter, most) && told_apart(shorter, stretch, most)
}

/// Whether a stretch and its copy, which stands at the beginning of a buffer, are found to be the same, in just so many
/// steps, and all others that are tried are told apart.
pub fn compare_copy(stretch: &[u8], buffer: &mut [u8], steps: usize) -> Verdict {
    let copy = buffer
        .get_mut(..stretch.len())
        .ok_or(Difference::Malformed)?;
    let found = compare(stretch, copy);
    if !found.same {
        return Err(Difference::Outcome);
    }
    if found.steps != steps {
        return Err(Difference::Steps);
    }
    if !end_found(stretch, steps) || !changes_found(stretch, copy, steps) {
        return Err(Difference::Outcome);
    }
    Ok(())
}
