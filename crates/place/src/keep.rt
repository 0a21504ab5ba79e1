//! Keep: of a tree, what a path leads to, under void roots. A keep is written where it belongs at once: the keeps of
//! a label's trees behind the room for the heads, then the heads.
ghost use Rattle.spec_trees.specs.Bytes.{tree_bytes};
ghost use Rattle.format.specs.Stand.{trees_bytes};
ghost use Rattle.place.specs.Writers.{WriterReady};
ghost use Rattle.place.specs.Kept.{Keeps, KeepsEach};

use crate::place::{put_void, wrap};
use areas::area::{TooLarge, copy, field_end};
use areas::span::Span;
use format::labels::{find, heads};
use queries::path::{step_at, steps};

/// Writes into the room the keep of the tree, by the path from step i on.
#[cycle(keeping)]
pub fn keep(
    work: &mut [u8],
    query: &[u8],
    path: Span,
    i: usize,
    tree: Span,
    room: Span,
) -> Result<usize, TooLarge>
    requires { WriterReady tree_bytes work.old query.now path i tree room }
    ensures { Keeps work.old work.new query.now path i tree room result }
{
    if i == steps(query, path) {
        return copy(work, tree, room);
    }
    let label = step_at(query, path, i);
    let labels = Span {
        from: field_end(work, tree.from + 3),
        to: tree.to,
    };
    let Some(array) = find(work, labels, label) else {
        return put_void(work, room);
    };
    let n = 6 + heads(label);
    if room.to - room.from < n {
        return Err(TooLarge);
    }
    let behind = Span {
        from: room.from + n,
        to: room.to,
    };
    let inner = keep_each(work, query, path, i + 1, array, behind);
    wrap(work, room.from, label, inner)
}

/// Writes into the room the keeps of the trees, by the path from step i on, one behind another.
#[cycle(keeping)]
fn keep_each(
    work: &mut [u8],
    query: &[u8],
    path: Span,
    i: usize,
    trees: Span,
    room: Span,
) -> Result<usize, TooLarge>
    requires { WriterReady trees_bytes work.old query.now path i trees room }
    ensures { KeepsEach work.old work.new query.now path i trees room result }
{
    let end = trees.to;
    let stop = room.to;
    let mut from = trees.from;
    let mut at = room.from;
    while from != end {
        let m = field_end(work, from);
        let left = Span { from: at, to: stop };
        let e = keep(work, query, path, i, Span { from, to: m }, left)?;
        from = m;
        at = e;
    }
    Ok(at)
}
