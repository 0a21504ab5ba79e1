//! An integer, written as the bare tree whose root it is.
ghost use Rattle.std.specs.Prelude.{◌≤◌, length};
ghost use Rattle.spec_trees.specs.Limits.{work_min};
ghost use Rattle.areas.specs.Area.{Wrote};
ghost use Rattle.bare.specs.Bare.{integer_tree};

use areas::area::{TooLarge, put_head};
use areas::number::put_word;
use areas::span::Span;

/// The tag of an integer root; where in a tree the root stands, where its bits, and where it ends.
#[derive(Clone, Copy)]
pub struct Integer;

impl Integer {
    pub const TAG: u8 = 5;

    pub const ROOT: usize = 3;

    pub const BITS: usize = 6;

    pub const END: usize = 14;
}

/// The bare tree whose root is the integer with these bits, from its last part to its first.
pub fn put_integer(work: &mut [u8], bits: u64, room: Span) -> Result<usize, TooLarge>
    requires { (room.from ≤ room.to) × (room.to ≤ length work.old) × (length work.old ≤ work_min) }
    ensures { Wrote work.old work.new room.from room.to (integer_tree bits) result }
{
    let at = room.from;
    let end = at + Integer::END;
    if room.to < end {
        return Err(TooLarge);
    }
    put_word(work, at + Integer::BITS, bits);
    put_head(work, at + Integer::ROOT, Integer::TAG, end);
    put_head(work, at, 2, end);
    Ok(end)
}
