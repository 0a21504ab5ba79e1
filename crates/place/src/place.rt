//! Heads stored before what was written: a void tree with one label, and a place along a whole path. The content is
//! written first, behind the room for its heads, since a head says how long the content is.
ghost use Rattle.std.specs.Prelude.{◌≡◌, ◌+◌, ◌≤◌, length};
ghost use Rattle.spec_trees.specs.Limits.{label_max, work_min};
ghost use Rattle.spec_trees.specs.Tree.{bare_void};
ghost use Rattle.spec_trees.specs.Bytes.{tree_bytes, label_heads};
ghost use Rattle.areas.specs.Area.{Wrote};
ghost use Rattle.format.specs.Stand.{Behind, Headed};
ghost use Rattle.queries.specs.Steps.{step_count};
ghost use Rattle.place.specs.Writers.{Along};
ghost use Rattle.place.specs.Place.{Placed, under, room_at};

use areas::area::{TooLarge, copy_in, put_head};
use areas::span::Span;
use format::labels::{entry, heads};
use queries::path::{step_at, steps};

/// Stores, before a content that another writer wrote behind the room for them, the heads of a void tree whose one label
/// holds it: of the tree, of its root, and of the label.
pub fn wrap(
    work: &mut [u8],
    at: usize,
    label: u16,
    written: Result<usize, TooLarge>,
) -> Result<usize, TooLarge>
    requires { Behind work.old (at + (6 + label_heads label)) written × (label ≤ label_max) × (at + (6 + label_heads label) ≤ length work.old) × (length work.old ≤ work_min) }
    ensures { Headed (under label) (6 + label_heads label) work.old work.new at written result }
{
    let e = entry(work, at + 6, label, written)?;
    put_head(work, at + 3, 3, at + 6);
    put_head(work, at, 2, e);
    Ok(e)
}

/// How many bytes of heads a place has along the path.
pub fn heads_room(query: &[u8], target: Span) -> usize
    requires { Along query.now target }
    ensures { result ≡ room_at query.now target (step_count query.now target) }
{
    let n = steps(query, target);
    let mut all = 0;
    for i in 0..n {
        all += 6 + heads(step_at(query, target, i));
    }
    all
}

/// Stores the heads of a place along the path, before a content that another writer wrote behind the room for them,
/// which begins at `at`. From the inside out, so that each head knows its length.
pub fn place_heads(
    work: &mut [u8],
    query: &[u8],
    target: Span,
    at: usize,
    written: Result<usize, TooLarge>,
) -> Result<usize, TooLarge>
    requires { Along query.now target × Behind work.old (at + room_at query.now target (step_count query.now target)) written × (at + room_at query.now target (step_count query.now target) ≤ length work.old) × (length work.old ≤ work_min) }
    ensures { Placed work.old work.new query.now target at written result }
{
    let n = steps(query, target);
    let mut to = at + heads_room(query, target);
    let mut out = written;
    for i in (0..n).rev() {
        let label = step_at(query, target, i);
        to -= 6 + heads(label);
        out = wrap(work, to, label, out);
    }
    out
}

/// Writes the bare void tree into the room: what a place of absent data, or the keep of a missing label, is.
pub fn put_void(work: &mut [u8], room: Span) -> Result<usize, TooLarge>
    requires { (room.from ≤ room.to) × (room.to ≤ length work.old) }
    ensures { Wrote work.old work.new room.from room.to (tree_bytes bare_void) result }
{
    copy_in(work, b"\x02\x00\x03\x03\x00\x00", room)
}
