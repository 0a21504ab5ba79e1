//! The parts of which a tree is built. The tree so far stands in room for one tree; a part is written behind that room,
//! and merged above it. So three such rooms are used, from where the tree begins.
ghost use Rattle.std.specs.Prelude.{◌+◌, ◌≤◌, length};
ghost use Rattle.spec_trees.specs.Limits.{tree_max};
ghost use Rattle.spec_trees.specs.Tree.{bare_void};
ghost use Rattle.spec_trees.specs.Bytes.{tree_bytes};
ghost use Rattle.areas.specs.Area.{Wrote};
ghost use Rattle.build.specs.Made.{Adding, Adds, ValueReady, PlacesValue};

use crate::build::add_part;
use areas::area::TooLarge;
use areas::span::Span;
use format::limits::Limits;
use place::place::{place_heads, put_void};

/// Writes the bare void tree, with which a build begins, and answers where it ends.
pub fn begin(work: &mut [u8], at: usize) -> usize
    requires { at + tree_max ≤ length work.old }
    ensures { Wrote work.old work.new at (at + tree_max) (tree_bytes bare_void) (Ok result) }
{
    let stop = at + Limits::TREE;
    let _ = put_void(work, Span { from: at, to: stop });
    at + 6
}

/// Adds the part that another writer wrote behind the tree's room to the tree.
pub fn add_written(
    work: &mut [u8],
    built: Span,
    written: Result<usize, TooLarge>,
) -> Result<usize, TooLarge>
    requires { Adding work.old built written }
    ensures { Adds work.old work.new built written result }
{
    let e = written?;
    let d = built.from + Limits::TREE;
    add_part(work, built, Span { from: d, to: e })
}

/// Places along the path a value that another writer wrote behind the room for the heads. Absent gives the bare void
/// tree.
pub fn place_value(
    work: &mut [u8],
    query: &[u8],
    target: Span,
    room: Span,
    written: Result<Option<usize>, TooLarge>,
) -> Result<usize, TooLarge>
    requires { ValueReady work.old query.now target room written }
    ensures { PlacesValue work.old work.new query.now target room written result }
{
    let value = written?;
    match value {
        Some(end) => place_heads(work, query, target, room.from, Ok(end)),
        None => put_void(work, room),
    }
}
