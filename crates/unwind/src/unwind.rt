//! Unwind: the outcomes of a tree, each of them a copy of the tree whose label holds just one tree. An outcome is no
//! larger than the tree, and its parts stand as far behind its start as the tree's do: so what goes under the label
//! is written first, in its place, and then the rest of the tree around it.
ghost use Rattle.std.specs.Prelude.{◌≤◌, length};
ghost use Rattle.spec_trees.specs.Bytes.{tree_bytes};
ghost use Rattle.format.specs.Stand.{trees_bytes};
ghost use Rattle.queries.specs.Places.{HoldsAt};
ghost use Rattle.queries.specs.Steps.{step_count};
ghost use Rattle.place.specs.Writers.{Along, WriterReady};
ghost use Rattle.unwind.specs.Outcomes.{sound_bytes, sounds_bytes, Counts, CountsEach, RoomFor, PutsWhole, PutsNth, PutsNthEach, Has, PutsOutcome, Around, Surrounds, ElementReady, PutsElement};

use areas::area::{TooLarge, copy, field_end, finish};
use areas::span::Span;
use format::labels::{entry, find, heads};
use queries::path::{step_at, steps};

/// The j-th outcome was written, with this answer; or there are not so many, and this many more are asked than there
/// are.
#[derive(Clone, Copy)]
pub enum Nth {
    Written(Result<usize, TooLarge>),
    Past(usize),
}

/// How many outcomes the tree has by the path from step i on.
#[cycle(unwinding)]
pub fn outcomes(query: &[u8], path: Span, i: usize, area: &[u8], tree: Span) -> usize
    requires { Along query.now path × (i ≤ step_count query.now path) × HoldsAt tree_bytes area.now tree }
    ensures { Counts query.now path i area.now tree result }
{
    if i == steps(query, path) {
        return 1;
    }
    let labels = Span {
        from: field_end(area, tree.from + 3),
        to: tree.to,
    };
    let Some(array) = find(area, labels, step_at(query, path, i)) else {
        return 0;
    };
    outcomes_each(query, path, i + 1, area, array)
}

/// How many outcomes the trees have together by the path from step i on.
#[cycle(unwinding)]
fn outcomes_each(query: &[u8], path: Span, i: usize, area: &[u8], trees: Span) -> usize
    requires { Along query.now path × (i ≤ step_count query.now path) × HoldsAt trees_bytes area.now trees }
    ensures { CountsEach query.now path i area.now trees result }
{
    let end = trees.to;
    let mut n = 0;
    let mut at = trees.from;
    while at != end {
        let m = field_end(area, at);
        n += outcomes(query, path, i, area, Span { from: at, to: m });
        at = m;
    }
    n
}

/// Writes the tree into the room, around a content that another writer put in the place of the array under the tree's
/// label: the entry's heads, then the root and the labels before, then the labels behind.
fn surround(
    work: &mut [u8],
    label: u16,
    tree: Span,
    array: Span,
    room: Span,
    written: Result<usize, TooLarge>,
) -> Result<usize, TooLarge>
    requires { Around work.old label tree array room written }
    ensures { Surrounds work.old work.new label tree array room written result }
{
    let n = heads(label);
    let at = room.from + (array.from - tree.from) - n;
    let e = entry(work, at, label, written)?;
    let before = Span {
        from: tree.from + 3,
        to: array.from - n,
    };
    let front = Span {
        from: room.from + 3,
        to: at,
    };
    let _ = copy(work, before, front);
    let behind = Span {
        from: array.to,
        to: tree.to,
    };
    let back = Span {
        from: e,
        to: room.to,
    };
    let all = copy(work, behind, back);
    finish(work, room.from, 2, all)
}

/// By the empty path the tree is its own only outcome.
fn put_whole(work: &mut [u8], tree: Span, j: usize, room: Span) -> Nth
    requires { (tree.from ≤ tree.to) × (tree.to ≤ room.from) × (room.from ≤ room.to) × (room.to ≤ length work.old) }
    ensures { PutsWhole work.old work.new tree j room result }
{
    if j != 0 {
        return Nth::Past(j - 1);
    }
    let all = copy(work, tree, room);
    Nth::Written(all)
}

/// Writes into the room the j-th outcome of the tree by the path from step i on, if there are so many. Only the trees
/// that come before it are walked, each once; nothing is written before it is found.
#[cycle(putting)]
pub fn put_nth(
    work: &mut [u8],
    query: &[u8],
    path: Span,
    i: usize,
    tree: Span,
    j: usize,
    room: Span,
) -> Nth
    requires { WriterReady sound_bytes work.old query.now path i tree room × RoomFor tree room }
    ensures { PutsNth work.old work.new query.now path i tree j room result }
{
    if i == steps(query, path) {
        return put_whole(work, tree, j, room);
    }
    let label = step_at(query, path, i);
    let labels = Span {
        from: field_end(work, tree.from + 3),
        to: tree.to,
    };
    let Some(array) = find(work, labels, label) else {
        return Nth::Past(j);
    };
    let at = room.from + (array.from - tree.from);
    let content = Span {
        from: at,
        to: room.to,
    };
    let inner = put_nth_each(work, query, path, i + 1, array, j, content);
    let Nth::Written(written) = inner else {
        return inner;
    };
    let all = surround(work, label, tree, array, room, written);
    Nth::Written(all)
}

/// The same of the outcomes of the trees, one behind another.
#[cycle(putting)]
fn put_nth_each(
    work: &mut [u8],
    query: &[u8],
    path: Span,
    i: usize,
    trees: Span,
    j: usize,
    room: Span,
) -> Nth
    requires { WriterReady sounds_bytes work.old query.now path i trees room × RoomFor trees room }
    ensures { PutsNthEach work.old work.new query.now path i trees j room result }
{
    let end = trees.to;
    let mut at = trees.from;
    let mut left = j;
    while at != end {
        let m = field_end(work, at);
        let one = put_nth(work, query, path, i, Span { from: at, to: m }, left, room);
        let Nth::Past(n) = one else {
            return one;
        };
        at = m;
        left = n;
    }
    Nth::Past(left)
}

/// Writes into the room the j-th outcome, which there is, of the tree by the path.
pub fn put_outcome(
    work: &mut [u8],
    query: &[u8],
    path: Span,
    tree: Span,
    j: usize,
    room: Span,
) -> Result<usize, TooLarge>
    requires { WriterReady sound_bytes work.old query.now path 0 tree room × RoomFor tree room × Has work.old query.now path tree j }
    ensures { PutsOutcome work.old work.new query.now path tree j room result }
{
    let one = put_nth(work, query, path, 0, tree, j, room);
    let Nth::Written(written) = one else {
        return Err(TooLarge);
    };
    written
}

/// Writes the tree into the room with just the element, a tree, under its label, whose array stands where `array` says.
/// For a path of one label this is the outcome for that element: a caller finds the entry once, and walks the array with
/// `field_end`, so that no outcome starts from the tree's start.
pub fn put_element(
    work: &mut [u8],
    label: u16,
    tree: Span,
    array: Span,
    element: Span,
    room: Span,
) -> Result<usize, TooLarge>
    requires { ElementReady work.old label tree array element room }
    ensures { PutsElement work.old work.new label tree element room result }
{
    let at = room.from + (array.from - tree.from);
    let content = Span {
        from: at,
        to: room.to,
    };
    let one = copy(work, element, content);
    surround(work, label, tree, array, room, one)
}
