//! A root's content, written as the bare tree that has it.
ghost use Rattle.std.specs.Prelude.{◌≤◌, length};
ghost use Rattle.spec_trees.specs.Limits.{work_min};
ghost use Rattle.areas.specs.Area.{Wrote};
ghost use Rattle.bare.specs.Bare.{bare_tree};

use areas::area::{TooLarge, copy_in, finish};
use areas::span::Span;

/// The bytes before a root's content: the tree's head and the root's.
const HEADS: usize = 6;

/// The bare tree whose root has this tag and this content.
pub fn put_root(work: &mut [u8], tag: u8, content: &[u8], room: Span) -> Result<usize, TooLarge>
    requires { (room.from ≤ room.to) × (room.to ≤ length work.old) × (length work.old ≤ work_min) }
    ensures { Wrote work.old work.new room.from room.to (bare_tree tag content.now) result }
{
    let at = room.from;
    let to = room.to;
    if to - at < HEADS {
        return Err(TooLarge);
    }
    let written = copy_in(
        work,
        content,
        Span {
            from: at + HEADS,
            to,
        },
    );
    let root = finish(work, at + 3, tag, written);
    finish(work, at, 2, root)
}
