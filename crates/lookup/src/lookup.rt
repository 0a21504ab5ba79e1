//! Lookup: a tree's merge with the place of all joined trees that match it, in the place of the tree. The joined
//! trees are copied once, behind the room for the heads of the place. Of `<'a>`: see crate `paths`'s `equality`.
ghost use Rattle.spec_trees.specs.Limits.{depth_max};
ghost use Rattle.spec_trees.specs.Bytes.{tree_bytes};
ghost use Rattle.spec_trees.specs.Within.{Allowed, AllowedA};
ghost use Rattle.queries.specs.Places.{array_trees};
ghost use Rattle.lookup.specs.Lookup.{Matching, CopiesMatch, CopiesPartners, LookupReady, Looks};

use crate::matching::joins;
use areas::area::{TooLarge, copy_in, field_end};
use areas::span::Span;
use build::part::{add_written, place_value};
use format::limits::Limits;
use place::place::heads_room;
use queries::stage::LookupAt;

/// Copies the joined tree that stands at `other` into the room, if it matches the tree.
fn copy_match<'a>(
    work: &mut [u8],
    query: &'a [u8],
    at: LookupAt,
    tree: Span,
    joined: &'a [u8],
    other: Span,
    room: Span,
) -> Result<usize, TooLarge>
    requires { Matching (Allowed depth_max) tree_bytes work.old query.now at tree joined.now other room }
    ensures { CopiesMatch work.old work.new query.now at tree joined.now other room result }
{
    if joins(query, at.own, at.theirs, work, tree, joined, other) {
        let from = other.from;
        let to = other.to;
        return copy_in(work, &joined[from..to], room);
    }
    Ok(room.from)
}

/// Copies those of the joined trees that match the tree into the room, in their order.
fn copy_partners<'a>(
    work: &mut [u8],
    query: &'a [u8],
    at: LookupAt,
    tree: Span,
    joined: &'a [u8],
    trees: Span,
    room: Span,
) -> Result<usize, TooLarge>
    requires { Matching AllowedA array_trees work.old query.now at tree joined.now trees room }
    ensures { CopiesPartners work.old work.new query.now at tree joined.now trees room result }
{
    let end = trees.to;
    let stop = room.to;
    let mut from = trees.from;
    let mut to = room.from;
    while from != end {
        let m = field_end(joined, from);
        let e = copy_match(
            work,
            query,
            at,
            tree,
            joined,
            Span { from, to: m },
            Span { from: to, to: stop },
        )?;
        to = e;
        from = m;
    }
    Ok(to)
}

/// Makes, in the place of the tree, its merge with the place of all joined trees that match it. In the query stand the
/// lookup's paths, in `joined` the trees of the joined array.
pub fn lookup<'a>(
    work: &mut [u8],
    query: &'a [u8],
    at: LookupAt,
    tree: Span,
    joined: &'a [u8],
    trees: Span,
) -> Result<usize, TooLarge>
    requires { LookupReady work.old query.now at tree joined.now trees }
    ensures { Looks work.old work.new query.now at tree joined.now trees result }
{
    let from = tree.from + Limits::TREE;
    let to = from + Limits::TREE;
    let n = heads_room(query, at.target);
    let inner = Span { from: from + n, to };
    let all = copy_partners(work, query, at, tree, joined, trees, inner);
    let placed = place_value(work, query, at.target, Span { from, to }, all.map(Some));
    add_written(work, tree, placed)
}
