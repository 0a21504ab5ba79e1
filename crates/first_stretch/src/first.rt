//! The first stretch: the trees of the input, one after another; or all at once, where no stage is to change them.
ghost use Rattle.std.specs.Prelude.{◌≡◌};
ghost use Rattle.format.specs.Stand.{Says};
ghost use Rattle.queries.specs.Places.{HoldsAt, stages_bytes};
ghost use Rattle.first_stretch.specs.First.{is_group_at, none_before, TreeReady, TreeFed, FirstReady, FirstPost};

use areas::area::{copy_in, field_end};
use areas::span::Span;
use format::limits::Limits;
use map::map::Map;
use positions::bear::number;
use queries::stage::{StageAt, stage_at};
use stream::collector::{Collector, is_large};
use stream::feed::feed;
use stretch::mark::mark_since;

/// Whether the stage is a group.
fn is_group(stage: StageAt) -> bool
    ensures { result ≡ is_group_at stage }
{
    match stage {
        StageAt::Match(_) => false,
        StageAt::Unwind(_) => false,
        StageAt::Project(_) => false,
        StageAt::Group(_) => true,
        StageAt::Lookup(_) => false,
    }
}

/// Whether no stage stands before the first group, or the end.
fn none_before(query: &[u8], stages: Span) -> bool
    requires { HoldsAt stages_bytes query.now stages }
    ensures { Says stages_bytes none_before query.now stages.from stages.to result }
{
    let at = stages.from;
    if at == stages.to {
        return true;
    }
    let m = field_end(query, at);
    is_group(stage_at(query, Span { from: at, to: m }))
}

/// A tree of the input goes through the stages before the first group, in the part of the work area that is lent to
/// them.
fn feed_tree<'a>(
    area: &mut [u8],
    tree: &'a [u8],
    query: &'a [u8],
    stages: Span,
    joined: &'a [u8],
    collector: Collector,
) -> Collector
    requires { TreeReady area.old tree.now query.now stages joined.now collector }
    ensures { TreeFed area.old area.new tree.now query.now stages joined.now collector result }
{
    let room = Span {
        from: 0,
        to: Limits::TREE,
    };
    let _ = copy_in(area, tree, room);
    feed(area, tree.len(), query, stages, joined, collector)
}

/// Each tree of the input goes through the stages before the first group, and what leaves them is collected and bears
/// its position, from 1.
fn feed_trees<'a>(
    input: &'a [u8],
    work: &mut [u8],
    query: &'a [u8],
    stages: Span,
    joined: &'a [u8],
) -> Collector
    requires { FirstReady input.now work.old query.now stages joined.now }
    ensures { FirstPost input.now work.new query.now stages joined.now result }
{
    let mut held = Collector::Len(0);
    let mut position = 1;
    let mut at = 3;
    while at != input.len() {
        let m = field_end(input, at);
        let tree = &input[at..m];
        let next = feed_tree(&mut work[..Map::LENT], tree, query, stages, joined, held);
        if is_large(next) {
            return Collector::Large;
        }
        mark_since(work, held, next, position);
        held = next;
        position += 1;
        at = m;
    }
    held
}

/// The trees of the input, through the stages before the first group, are collected. Where there is no such stage, the
/// collector gets them in one piece: an input is never too long for it.
pub fn first<'a>(
    input: &'a [u8],
    work: &mut [u8],
    query: &'a [u8],
    stages: Span,
    joined: &'a [u8],
) -> Collector
    requires { FirstReady input.now work.old query.now stages joined.now }
    ensures { FirstPost input.now work.new query.now stages joined.now result }
{
    if none_before(query, stages) {
        let room = Span {
            from: Map::COLLECTED,
            to: Map::COLLECTED + Map::TREES,
        };
        let len = input.len() - 3;
        let _ = copy_in(work, &input[3..], room);
        number(work, len);
        return Collector::Len(len as u16);
    }
    feed_trees(input, work, query, stages, joined)
}
