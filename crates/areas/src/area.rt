//! Bytes in one lent area: copying, heads, clearing. A writer writes from the start of its room and never passes the
//! room's end: what stands below, which it may read, and what stands from the end on are as they were, whatever it
//! answers.
ghost use Rattle.std.specs.Prelude.{◌≡◌, ◌+◌, ◌-◌, ◌≤◌, ◌⊎◌, length, take, drop, replicate, Ok};
ghost use Rattle.std.proofs.Math.Seq.{paste};
ghost use Rattle.spec_trees.specs.Limits.{work_min};
ghost use Rattle.areas.specs.Area.{Wrote, head_bytes, field_end, Finishable, Finished};

use crate::number::{put_two, two_at};
use crate::span::Span;

/// The bytes did not fit into the room. A writer answers this, or where the next byte goes.
#[derive(Clone, Copy, Debug, PartialEq, Eq)]
pub struct TooLarge;

/// Where the field at `at` ends, as its head says.
pub fn field_end(area: &[u8], at: usize) -> usize
    requires { field_end area.now at ≤ length area.now }
    ensures { result ≡ field_end area.now at }
{
    at + 3 + two_at(area, at + 1)
}

/// Copies `len` bytes, from the first to the last, so that each is read before it is stored over.
fn carry(work: &mut [u8], from: usize, len: usize, to: usize)
    requires { (from + len ≤ length work.old) × (to + len ≤ length work.old) × ((from + len ≤ to) ⊎ (to ≤ from)) }
    ensures { work.new ≡ paste work.old to (take len (drop from work.old)) len }
{
    for i in 0..len {
        work[to + i] = work[from + i];
    }
}

/// Copies a part that stands below the room.
pub fn copy(work: &mut [u8], part: Span, room: Span) -> Result<usize, TooLarge>
    requires { (part.from ≤ part.to) × (part.to ≤ room.from) × (room.from ≤ room.to) × (room.to ≤ length work.old) }
    ensures { Wrote work.old work.new room.from room.to (take (part.to - part.from) (drop part.from work.old)) result }
{
    let len = part.to - part.from;
    if room.to - room.from < len {
        return Err(TooLarge);
    }
    carry(work, part.from, len, room.from);
    Ok(room.from + len)
}

/// Moves a part down. The two places may overlap.
pub fn move_down(work: &mut [u8], part: Span, to: usize)
    requires { (to ≤ part.from) × (part.from ≤ part.to) × (part.to ≤ length work.old) }
    ensures { Wrote work.old work.new to (length work.old) (take (part.to - part.from) (drop part.from work.old)) (Ok (to + (part.to - part.from))) }
{
    carry(work, part.from, part.to - part.from, to);
}

/// Copies a part to a place so far below that the two have no byte in common. The last byte goes first: if the first
/// did, the compiler could call `memmove`, which a machine need not have.
pub fn copy_down(work: &mut [u8], part: Span, to: usize)
    requires { (part.from ≤ part.to) × (part.to ≤ length work.old) × (to + (part.to - part.from) ≤ part.from) }
    ensures { Wrote work.old work.new to (length work.old) (take (part.to - part.from) (drop part.from work.old)) (Ok (to + (part.to - part.from))) }
{
    let from = part.from;
    for i in (0..part.to - from).rev() {
        work[to + i] = work[from + i];
    }
}

/// Copies all of another area.
pub fn copy_in(work: &mut [u8], source: &[u8], room: Span) -> Result<usize, TooLarge>
    requires { (room.from ≤ room.to) × (room.to ≤ length work.old) }
    ensures { Wrote work.old work.new room.from room.to source.now result }
{
    let from = room.from;
    if room.to - from < source.len() {
        return Err(TooLarge);
    }
    for i in 0..source.len() {
        work[from + i] = source[i];
    }
    Ok(from + source.len())
}

/// Stores the head at `at`, before a content that stands from at + 3 to `end`: its length is known only when it is
/// written.
pub fn put_head(work: &mut [u8], at: usize, tag: u8, end: usize)
    requires { (at + 3 ≤ end) × (end ≤ length work.old) × (length work.old ≤ work_min) }
    ensures { Wrote work.old work.new at (at + 3) (head_bytes tag (end - (at + 3))) (Ok (at + 3)) }
{
    put_two(work, at + 1, end - (at + 3));
    work[at] = tag;
}

/// Stores the head at `at`, before a content that was written from at + 3 on, unless it did not fit.
pub fn finish(
    work: &mut [u8],
    at: usize,
    tag: u8,
    written: Result<usize, TooLarge>,
) -> Result<usize, TooLarge>
    requires { Finishable work.old at written × (length work.old ≤ work_min) }
    ensures { Finished work.old work.new at tag written result }
{
    let end = written?;
    put_head(work, at, tag, end);
    Ok(end)
}

/// Sets every byte to zero.
pub fn clear(area: &mut [u8])
    ensures { area.new ≡ replicate (length area.old) 0 }
{
    area.fill(0);
}

/// Writes the source directly behind the first `at` bytes of the result, through the lent tail.
pub fn emit(res: &mut [u8], at: usize, source: &[u8]) -> Result<usize, TooLarge>
    requires { at ≤ length res.old }
    ensures { Wrote res.old res.new at (length res.old) source.now result }
{
    let len = res.len() - at;
    let n = copy_in(&mut res[at..], source, Span { from: 0, to: len })?;
    Ok(at + n)
}
