//! One tree through the stages of a stretch, depth first: what a stage makes of it goes on at once, and what leaves
//! the last stage is collected. The tree stands at the front of a lent tail of the work area, up to `end`; the
//! collector is at the end of the tail. A stage that makes a tree beside the one it reads makes it behind a room of
//! one tree, and lends the tail from there. The functions call each other in a cycle, which ends as the stages do. The
//! stages stand in the query; `joined` is the joined array.
ghost use Rattle.std.specs.Prelude.{◌≡◌};
ghost use Rattle.spec_trees.specs.Limits.{nest_max};
ghost use Rattle.spec_queries.specs.Query.{match, unwind, project};
ghost use Rattle.spec_queries.specs.Rules.{OkP, NestedC};
ghost use Rattle.queries.specs.Steps.{step_count};
ghost use Rattle.queries.specs.Places.{path_bytes, criterion_bytes, items_bytes};
ghost use Rattle.stream.specs.Feed.{FeedReady, FeedPost, OkItems, PartReady, PartPost, JoinReady, JoinPost};
ghost use Rattle.stream.specs.Unwinding.{UnwoundEntry};

use crate::collector::{Collector, collect, is_large};
use areas::area::{TooLarge, field_end};
use areas::span::Span;
use criteria::criteria::holds;
use format::labels::find;
use format::limits::Limits;
use lookup::lookup::lookup;
use project::project::project;
use queries::path::{step_at, steps};
use queries::stage::{LookupAt, StageAt, stage_at};
use unwind::unwind::{outcomes, put_element, put_outcome};

/// Where the one part of a stage stands (a criterion, a path, items), and the stages behind it.
#[derive(Clone, Copy)]
pub struct PartAt {
    pub part: Span,
    pub next: Span,
}

/// A label, and where the trees of its array stand.
#[derive(Clone, Copy)]
pub struct Entry {
    pub label: u16,
    pub trees: Span,
}

/// Feeds the tree at the front of the tail to the stages, up to the next group: what leaves the last of them is
/// collected. The answer is what the collector holds then.
#[cycle(feeding)]
pub fn feed<'a>(
    tail: &mut [u8],
    end: usize,
    query: &'a [u8],
    stages: Span,
    joined: &'a [u8],
    collector: Collector,
) -> Collector
    requires { FeedReady tail.old end query.now stages joined.now collector }
    ensures { FeedPost tail.old tail.new end query.now stages joined.now collector result }
{
    let at = stages.from;
    let to = stages.to;
    if at == to {
        return collect(tail, end, collector);
    }
    let m = field_end(query, at);
    let stage = stage_at(query, Span { from: at, to: m });
    let next = Span { from: m, to };
    match stage {
        StageAt::Match(part) => {
            return feed_matched(tail, end, query, PartAt { part, next }, joined, collector);
        }
        StageAt::Unwind(part) => {
            return feed_unwound(tail, end, query, PartAt { part, next }, joined, collector);
        }
        StageAt::Project(part) => {
            return feed_projected(tail, end, query, PartAt { part, next }, joined, collector);
        }
        StageAt::Group(group) => {
            return collect(tail, end, collector);
        }
        StageAt::Lookup(paths) => {
            return feed_looked(tail, end, query, paths, next, joined, collector);
        }
    }
}

/// Match: the tree goes on if it meets the criterion.
#[cycle(feeding)]
fn feed_matched<'a>(
    tail: &mut [u8],
    end: usize,
    query: &'a [u8],
    at: PartAt,
    joined: &'a [u8],
    collector: Collector,
) -> Collector
    requires { PartReady (NestedC nest_max) criterion_bytes tail.old end query.now at joined.now collector }
    ensures { PartPost (NestedC nest_max) criterion_bytes match tail.old tail.new end query.now at joined.now collector result }
{
    if holds(
        query,
        at.part,
        tail,
        Span { from: 0, to: end },
        Limits::NEST,
    ) {
        return feed(tail, end, query, at.next, joined, collector);
    }
    collector
}

/// Unwind: each outcome goes on. For a path of one label the array under it is walked once; for a longer path each
/// outcome is found from the tree's start.
#[cycle(feeding)]
fn feed_unwound<'a>(
    tail: &mut [u8],
    end: usize,
    query: &'a [u8],
    at: PartAt,
    joined: &'a [u8],
    collector: Collector,
) -> Collector
    requires { PartReady OkP path_bytes tail.old end query.now at joined.now collector }
    ensures { PartPost OkP path_bytes unwind tail.old tail.new end query.now at joined.now collector result }
{
    if steps(query, at.part) == 1 {
        return feed_elements(tail, end, query, at, joined, collector);
    }
    feed_outcomes(tail, end, query, at, joined, collector)
}

/// Each outcome in turn is written behind the front and goes on in the tail from there.
#[cycle(feeding)]
fn feed_outcomes<'a>(
    tail: &mut [u8],
    end: usize,
    query: &'a [u8],
    at: PartAt,
    joined: &'a [u8],
    collector: Collector,
) -> Collector
    requires { PartReady OkP path_bytes tail.old end query.now at joined.now collector }
    ensures { PartPost OkP path_bytes unwind tail.old tail.new end query.now at joined.now collector result }
{
    let tree = Span { from: 0, to: end };
    let room = Span {
        from: Limits::TREE,
        to: 2 * Limits::TREE,
    };
    let n = outcomes(query, at.part, 0, tail, tree);
    let mut held = collector;
    for i in 0..n {
        let Ok(o) = put_outcome(tail, query, at.part, tree, i, room) else {
            return Collector::Large;
        };
        held = feed(
            &mut tail[Limits::TREE..],
            o - Limits::TREE,
            query,
            at.next,
            joined,
            held,
        );
        if is_large(held) {
            return Collector::Large;
        }
    }
    held
}

/// The same by a path of one label. An array of no tree under it gives no outcome. Where one tree alone stands there,
/// the tree at the front is its own only outcome, and goes on as it lies.
#[cycle(feeding)]
fn feed_elements<'a>(
    tail: &mut [u8],
    end: usize,
    query: &'a [u8],
    at: PartAt,
    joined: &'a [u8],
    collector: Collector,
) -> Collector
    requires { PartReady OkP path_bytes tail.old end query.now at joined.now collector × (step_count query.now at.part ≡ 1) }
    ensures { PartPost OkP path_bytes unwind tail.old tail.new end query.now at joined.now collector result }
{
    let label = step_at(query, at.part, 0);
    let l = field_end(tail, 3);
    let Some(trees) = find(tail, Span { from: l, to: end }, label) else {
        return collector;
    };
    let f = trees.from;
    let t = trees.to;
    if f == t {
        return collector;
    }
    if field_end(tail, f) != t {
        let entry = Entry { label, trees };
        return feed_each(tail, end, query, at, entry, joined, collector);
    }
    feed(tail, end, query, at.next, joined, collector)
}

/// The outcome for each tree of the array that stands under the path's label, as the array is walked. The path itself
/// is not read again.
#[cycle(feeding)]
fn feed_each<'a>(
    tail: &mut [u8],
    end: usize,
    query: &'a [u8],
    at: PartAt,
    entry: Entry,
    joined: &'a [u8],
    collector: Collector,
) -> Collector
    requires { PartReady OkP path_bytes tail.old end query.now at joined.now collector × UnwoundEntry tail.old end query.now at.part entry.label entry.trees }
    ensures { PartPost OkP path_bytes unwind tail.old tail.new end query.now at joined.now collector result }
{
    let tree = Span { from: 0, to: end };
    let room = Span {
        from: Limits::TREE,
        to: 2 * Limits::TREE,
    };
    let trees = entry.trees;
    let stop = trees.to;
    let mut held = collector;
    let mut from = trees.from;
    while from != stop {
        let m = field_end(tail, from);
        let element = Span { from, to: m };
        let Ok(o) = put_element(tail, entry.label, tree, trees, element, room) else {
            return Collector::Large;
        };
        held = feed(
            &mut tail[Limits::TREE..],
            o - Limits::TREE,
            query,
            at.next,
            joined,
            held,
        );
        if is_large(held) {
            return Collector::Large;
        }
        from = m;
    }
    held
}

/// Project: the tree that the items make stands behind the front, and goes on in the tail from there.
#[cycle(feeding)]
fn feed_projected<'a>(
    tail: &mut [u8],
    end: usize,
    query: &'a [u8],
    at: PartAt,
    joined: &'a [u8],
    collector: Collector,
) -> Collector
    requires { PartReady OkItems items_bytes tail.old end query.now at joined.now collector }
    ensures { PartPost OkItems items_bytes project tail.old tail.new end query.now at joined.now collector result }
{
    let Ok(o) = project(
        tail,
        query,
        at.part,
        Span { from: 0, to: end },
        Limits::TREE,
    ) else {
        return Collector::Large;
    };
    feed(
        &mut tail[Limits::TREE..],
        o - Limits::TREE,
        query,
        at.next,
        joined,
        collector,
    )
}

/// Lookup: what it makes takes the tree's place, and goes on from there.
#[cycle(feeding)]
fn feed_looked<'a>(
    tail: &mut [u8],
    end: usize,
    query: &'a [u8],
    at: LookupAt,
    stages: Span,
    joined: &'a [u8],
    collector: Collector,
) -> Collector
    requires { JoinReady tail.old end query.now at stages joined.now collector }
    ensures { JoinPost tail.old tail.new end query.now at stages joined.now collector result }
{
    let trees = Span {
        from: 3,
        to: joined.len(),
    };
    let Ok(o) = lookup(tail, query, at, Span { from: 0, to: end }, joined, trees) else {
        return Collector::Large;
    };
    feed(tail, o, query, stages, joined, collector)
}
