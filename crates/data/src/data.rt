//! Writing what data give of a tree. The tree stands in the lent area, below the room, and its parts are copied once, into
//! the room: a literal from the query, an array of the tree in one piece where it stands so. Members of a list are
//! written one behind another, which joins them. A choice writes only the branch that is chosen.
//! A writer answers where the trees of an array end, which are written with no head before them, so that one array joined
//! to another is one piece behind the other; or that the data are absent, and nothing was written; or that the bytes did
//! not fit.
ghost use Rattle.std.specs.Prelude.{◌≡◌, map, true, false, ◌≤◌, length};
ghost use Rattle.std.proofs.Math.Option;
ghost use Rattle.spec_trees.specs.Tree.{node, boolean, bare, root};
ghost use Rattle.spec_trees.specs.Bytes.{tree_bytes};
ghost use Rattle.areas.specs.Area.{Wrote};
ghost use Rattle.spec_trees.specs.Lists.{All};
ghost use Rattle.format.specs.Stand.{trees_bytes};
ghost use Rattle.spec_trees.specs.Within.{OkR};
ghost use Rattle.spec_queries.specs.Rules.{NestedC, NestedD};
ghost use Rattle.queries.specs.Places.{criterion_bytes, data_bytes, datas_bytes};
ghost use Rattle.spec_stages.specs.Data as meant;
ghost use Rattle.paths.specs.Walk.{given, Tells, TellsOver};
ghost use Rattle.data.specs.Value.{value_of, WroteFound};
ghost use Rattle.data.specs.Write.{LeafReady, WalkReady, WroteLeaf, Kept, WroteParts, DataReady, Gives, NestedDs, WroteLiteral, tested, listed_from};

use crate::integer::reduce_at;
use areas::area::{TooLarge, copy, copy_in, field_end};
use areas::span::Span;
use criteria::criteria::holds;
use paths::path::{piece, under};
use queries::data::{DataAt, data_at};
use queries::path::steps;

/// The bare trees with a boolean root.
const TRUE: [u8; 7] = [2, 0, 4, 4, 0, 1, 1];

const FALSE: [u8; 7] = [2, 0, 4, 4, 0, 1, 0];

/// Copies the tree. For a divisor other than 0 its root, if it is an integer, is divided by it.
fn write_leaf(work: &mut [u8], divisor: usize, tree: Span, room: Span) -> Result<usize, TooLarge>
    requires { LeafReady work.old tree room divisor }
    ensures { Kept work.old work.new room (value_of result) × WroteLeaf work.old work.new tree room divisor result }
{
    let at = room.from;
    let e = copy(work, tree, room)?;
    if divisor == 0 {
        return Ok(e);
    }
    if work[at + 3] != 5 {
        return Ok(e);
    }
    reduce_at(work, at + 6, divisor);
    Ok(e)
}

/// Whether the trees at the end of a path, none of which is changed, are one piece with those under the same label.
fn in_piece(divisor: usize, i: usize, steps: usize) -> bool
    ensures { result ≡ true → (divisor ≡ 0) × (i ≡ steps) }
{
    if divisor == 0 {
        return i == steps;
    }
    false
}

/// What the path, from step i on, gives of the tree, with each root divided unless the divisor is 0.
// 0 is no divisor, as in the definitions (`part`), which divide by n unless n is 0; so it is no Option.
#[cycle(walking)]
fn write_walk(
    work: &mut [u8],
    query: &[u8],
    path: Span,
    i: usize,
    divisor: usize,
    tree: Span,
    room: Span,
) -> Result<Option<usize>, TooLarge>
    requires { WalkReady tree_bytes query.now path i work.old tree room divisor }
    ensures { Kept work.old work.new room result × Tells query.now path i work.old tree (WroteParts divisor false work.old work.new room result) }
{
    if i == steps(query, path) {
        let end = write_leaf(work, divisor, tree, room)?;
        return Ok(Some(end));
    }
    let Some(part) = under(query, path, i, work, tree) else {
        return Ok(None);
    };
    write_over(work, query, path, i + 1, divisor, part, room)
}

/// The same over an array, by its trees.
#[cycle(walking)]
fn write_over(
    work: &mut [u8],
    query: &[u8],
    path: Span,
    i: usize,
    divisor: usize,
    trees: Span,
    room: Span,
) -> Result<Option<usize>, TooLarge>
    requires { WalkReady trees_bytes query.now path i work.old trees room divisor }
    ensures { Kept work.old work.new room result × TellsOver query.now path i work.old trees (WroteParts divisor false work.old work.new room result) }
{
    let end = trees.to;
    let stop = room.to;
    let mut from = trees.from;
    let mut to = room.from;
    if in_piece(divisor, i, steps(query, path)) {
        let end = copy(work, trees, room)?;
        return Ok(Some(end));
    }
    if from == end {
        return Ok(Some(to));
    }
    let mut any = false;
    while from != end {
        let m = field_end(work, from);
        let one = write_walk(
            work,
            query,
            path,
            i,
            divisor,
            Span { from, to: m },
            Span { from: to, to: stop },
        )?;
        to = one.unwrap_or(to);
        any |= one.is_some();
        from = m;
    }
    Ok(any.then_some(to))
}

/// What the path gives of the tree.
pub fn write_path(
    work: &mut [u8],
    query: &[u8],
    path: Span,
    tree: Span,
    room: Span,
) -> Result<Option<usize>, TooLarge>
    requires { WalkReady tree_bytes query.now path 0 work.old tree room 0 }
    ensures { Tells query.now path 0 work.old tree (λ x. WroteFound work.old work.new room.from room.to x result) }
{
    write_walk(work, query, path, 0, 0, tree, room)
}

/// What the path gives of the tree. For a path of at most one label, as most aggregates have, it is copied in one piece.
fn write_part(
    work: &mut [u8],
    query: &[u8],
    path: Span,
    tree: Span,
    room: Span,
) -> Result<Option<usize>, TooLarge>
    requires { WalkReady tree_bytes query.now path 0 work.old tree room 0 }
    ensures { Kept work.old work.new room result × Tells query.now path 0 work.old tree (WroteParts 0 false work.old work.new room result) }
{
    if steps(query, path) <= 1 {
        let Some(part) = piece(query, path, work, tree) else {
            return Ok(None);
        };
        let end = copy(work, part, room)?;
        return Ok(Some(end));
    }
    write_walk(work, query, path, 0, 0, tree, room)
}

/// What the path gives over an array, by its trees.
pub fn write_path_over(
    work: &mut [u8],
    query: &[u8],
    path: Span,
    trees: Span,
    room: Span,
) -> Result<Option<usize>, TooLarge>
    requires { WalkReady trees_bytes query.now path 0 work.old trees room 0 }
    ensures { TellsOver query.now path 0 work.old trees (λ x. WroteFound work.old work.new room.from room.to x result) }
{
    let end = trees.to;
    let stop = room.to;
    let mut from = trees.from;
    let mut to = room.from;
    if from == end {
        return Ok(Some(to));
    }
    let mut any = false;
    while from != end {
        let m = field_end(work, from);
        let one = write_part(
            work,
            query,
            path,
            Span { from, to: m },
            Span { from: to, to: stop },
        )?;
        to = one.unwrap_or(to);
        any |= one.is_some();
        from = m;
    }
    Ok(any.then_some(to))
}

/// What the path gives of the tree, with the root of each tree divided.
pub fn write_reduced(
    work: &mut [u8],
    query: &[u8],
    path: Span,
    divisor: usize,
    tree: Span,
    room: Span,
) -> Result<Option<usize>, TooLarge>
    requires { WalkReady tree_bytes query.now path 0 work.old tree room divisor × (1 ≤ divisor) }
    ensures { Tells query.now path 0 work.old tree (λ x. All (λ t. OkR (root t)) (given x) → WroteFound work.old work.new room.from room.to (Option.map (map (meant.reduced_tree divisor)) x) result) }
{
    write_walk(work, query, path, 0, divisor, tree, room)
}

/// The array whose trees stand in the query.
fn write_literal(
    work: &mut [u8],
    query: &[u8],
    trees: Span,
    room: Span,
) -> Result<Option<usize>, TooLarge>
    requires { (trees.from ≤ trees.to) × (trees.to ≤ length query.now) × (room.from ≤ room.to) × (room.to ≤ length work.old) }
    ensures { WroteLiteral query.now trees work.old work.new room result }
{
    let from = trees.from;
    let to = trees.to;
    let end = copy_in(work, &query[from..to], room)?;
    Ok(Some(end))
}

/// The bare tree whose root is the boolean.
fn put_boolean(work: &mut [u8], yes: bool, room: Span) -> Result<usize, TooLarge>
    requires { (room.from ≤ room.to) × (room.to ≤ length work.old) }
    ensures { Wrote work.old work.new room.from room.to (tree_bytes (node (boolean yes) bare)) result }
{
    if yes {
        return copy_in(work, &TRUE, room);
    }
    copy_in(work, &FALSE, room)
}

/// Whether the tree meets the criterion, as an array of one tree.
fn write_test(
    work: &mut [u8],
    query: &[u8],
    criterion: Span,
    tree: Span,
    room: Span,
    left: usize,
) -> Result<Option<usize>, TooLarge>
    requires { DataReady (NestedC left) criterion_bytes query.now criterion work.old tree room }
    ensures { Gives (NestedC left) criterion_bytes tested query.now criterion work.old work.new tree room result }
{
    let at = Span {
        from: tree.from,
        to: tree.to,
    };
    let yes = holds(query, criterion, work, at, left);
    let end = put_boolean(work, yes, room)?;
    Ok(Some(end))
}

/// What the data, nested no deeper than `left`, give of the tree.
#[cycle(writing)]
pub fn write_data(
    work: &mut [u8],
    query: &[u8],
    datum: Span,
    tree: Span,
    room: Span,
    left: usize,
) -> Result<Option<usize>, TooLarge>
    requires { DataReady (NestedD left) data_bytes query.now datum work.old tree room }
    ensures { Gives (NestedD left) data_bytes meant.value query.now datum work.old work.new tree room result }
{
    // a parameter handed on whole is copied 16 bytes at once, for which the processor waits: so `asked`, `at`, `into`
    let asked = Span {
        from: datum.from,
        to: datum.to,
    };
    let x = data_at(query, asked);
    match x {
        DataAt::Literal(trees) => write_literal(work, query, trees, room),
        DataAt::Path(path) => write_path(work, query, path, tree, room),
        DataAt::Listed(members) => write_list(work, query, members, tree, room, left - 1),
        DataAt::Test(criterion) => write_test(work, query, criterion, tree, room, left - 1),
        DataAt::Choice(criterion, one, two) => {
            let at = Span {
                from: tree.from,
                to: tree.to,
            };
            let into = Span {
                from: room.from,
                to: room.to,
            };
            if holds(query, criterion, work, at, left - 1) {
                return write_data(work, query, one, at, into, left - 1);
            }
            write_data(work, query, two, at, into, left - 1)
        }
        DataAt::Reduced(path, n) => write_reduced(work, query, path, n, tree, room),
    }
}

/// The members of a list, one behind another.
#[cycle(writing)]
fn write_list(
    work: &mut [u8],
    query: &[u8],
    members: Span,
    tree: Span,
    room: Span,
    left: usize,
) -> Result<Option<usize>, TooLarge>
    requires { DataReady (NestedDs left) datas_bytes query.now members work.old tree room }
    ensures { Gives (NestedDs left) datas_bytes (listed_from false) query.now members work.old work.new tree room result }
{
    let end = members.to;
    let stop = room.to;
    let mut at = members.from;
    let mut to = room.from;
    let mut any = false;
    while at != end {
        let m = field_end(query, at);
        let one = write_data(
            work,
            query,
            Span { from: at, to: m },
            Span {
                from: tree.from,
                to: tree.to,
            },
            Span { from: to, to: stop },
            left,
        )?;
        to = one.unwrap_or(to);
        any |= one.is_some();
        at = m;
    }
    Ok(any.then_some(to))
}
