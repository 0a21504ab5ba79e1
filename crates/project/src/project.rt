//! Project: what its items, each a keep or a place, make of a tree. Each item's part is written behind the tree so
//! far and merged into it, so that every test of `build` is made where the parts stand.
ghost use Rattle.spec_queries.specs.Rules.{OkI};
ghost use Rattle.queries.specs.Places.{item_bytes};
ghost use Rattle.project.specs.Project.{PlaceReady, WritesPlace, ItemReady, WritesItem, Building, AddsItem, ProjectReady, Projects};

use areas::area::{TooLarge, field_end};
use areas::span::Span;
use build::part::{add_written, begin, place_value};
use data::data::write_data;
use format::limits::Limits;
use place::keep::keep;
use place::place::heads_room;
use queries::item::{ItemAt, item_at};

/// Writes the place, along the path `target`, of what the data give of the tree.
fn write_place(
    work: &mut [u8],
    query: &[u8],
    datum: Span,
    target: Span,
    tree: Span,
    room: Span,
) -> Result<usize, TooLarge>
    requires { PlaceReady work.old query.now datum target tree room }
    ensures { WritesPlace work.old work.new query.now datum target tree room result }
{
    let n = heads_room(query, target);
    let inner = Span {
        from: room.from + n,
        to: room.to,
    };
    let r = write_data(work, query, datum, tree, inner, Limits::NEST);
    place_value(work, query, target, room, r)
}

/// Writes what the item makes of the tree.
fn write_item(
    work: &mut [u8],
    query: &[u8],
    item: Span,
    tree: Span,
    room: Span,
) -> Result<usize, TooLarge>
    requires { ItemReady work.old query.now item tree room }
    ensures { WritesItem work.old work.new query.now item tree room result }
{
    let x = item_at(query, item);
    match x {
        ItemAt::Keep(path) => keep(work, query, path, 0, tree, room),
        ItemAt::Place(datum, target) => write_place(work, query, datum, target, tree, room),
    }
}

/// Adds what the item makes of the tree to the tree so far.
fn add_item(
    work: &mut [u8],
    query: &[u8],
    item: Span,
    tree: Span,
    built: Span,
) -> Result<usize, TooLarge>
    requires { Building OkI item_bytes work.old query.now item tree built }
    ensures { AddsItem work.old work.new query.now item tree built result }
{
    let from = built.from + Limits::TREE;
    let room = Span {
        from,
        to: from + Limits::TREE,
    };
    let r = write_item(work, query, item, tree, room);
    add_written(work, built, r)
}

/// Makes at `at` what the items make of the tree, which stands below.
pub fn project(
    work: &mut [u8],
    query: &[u8],
    items: Span,
    tree: Span,
    at: usize,
) -> Result<usize, TooLarge>
    requires { ProjectReady work.old query.now items tree at }
    ensures { Projects work.old work.new query.now items tree at result }
{
    let end = items.to;
    let mut to = begin(work, at);
    let mut from = items.from;
    while from != end {
        let m = field_end(query, from);
        let e = add_item(
            work,
            query,
            Span { from, to: m },
            tree,
            Span { from: at, to },
        )?;
        to = e;
        from = m;
    }
    Ok(to)
}
