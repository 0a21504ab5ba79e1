//! The tree of a class whose totals fit: the bare void tree, with which the aggregates are merged and then the grouping
//! values, in the order of their pairs. The tree so far is `built`, and each value is written and placed behind its room, and
//! added.
ghost use Rattle.group.specs.Grow.{aggregate_value, joined_value, total_value, identity_value, one_part, sourced_part, Always, Fits, TotalFits, FirstAt, ClassAt, PairReady, PairGrows, PairsReady, PairsGrow};
ghost use Rattle.group.specs.Class.{ClassReady, MakesClass};

use areas::area::{TooLarge, field_end};
use areas::span::Span;
use build::part::{add_written, begin, place_value};
use data::data::{write_path, write_path_over};
use format::limits::Limits;
use paths::path::present;
use place::place::heads_room;
use queries::item::{is_total, pair_at};
use queries::stage::GroupAt;
use totals::over::total_over;
use totals::write::write_total;

/// Adds to the tree so far what the aggregate, which is no total, gives of the class: the values of all members, joined.
fn add_joined(
    work: &mut [u8],
    query: &[u8],
    pair: Span,
    members: Span,
    built: Span,
) -> Result<usize, TooLarge>
    requires { PairReady (ClassAt members built.from) Always work.old query.now pair built }
    ensures { PairGrows (ClassAt members built.from) Always (one_part joined_value) work.old work.new query.now pair built result }
{
    let at = pair_at(query, pair);
    let n = heads_room(query, at.target);
    let from = built.from + Limits::TREE;
    let to = from + Limits::TREE;
    let inner = Span { from: from + n, to };
    let r = write_path_over(work, query, at.source, members, inner);
    let o = place_value(work, query, at.target, Span { from, to }, r);
    add_written(work, built, o)
}

/// Adds to the tree so far the total of the class, which fits: the sum of the integers that the source gives of all
/// members.
fn add_total(
    work: &mut [u8],
    query: &[u8],
    pair: Span,
    members: Span,
    built: Span,
) -> Result<usize, TooLarge>
    requires { PairReady (ClassAt members built.from) TotalFits work.old query.now pair built }
    ensures { PairGrows (ClassAt members built.from) TotalFits (one_part total_value) work.old work.new query.now pair built result }
{
    let at = pair_at(query, pair);
    let n = heads_room(query, at.target);
    let from = built.from + Limits::TREE;
    let to = from + Limits::TREE;
    let total = total_over(query, at.source, work, members);
    let r = write_total(work, total, Span { from: from + n, to });
    let o = place_value(work, query, at.target, Span { from, to }, r);
    add_written(work, built, o)
}

/// Adds to the tree so far what the aggregate gives of the class.
fn add_aggregate(
    work: &mut [u8],
    query: &[u8],
    pair: Span,
    members: Span,
    built: Span,
) -> Result<usize, TooLarge>
    requires { PairReady (ClassAt members built.from) Fits work.old query.now pair built }
    ensures { PairGrows (ClassAt members built.from) Fits (one_part aggregate_value) work.old work.new query.now pair built result }
{
    if is_total(query, pair) {
        return add_total(work, query, pair, members, built);
    }
    add_joined(work, query, pair, members, built)
}

/// The same of each aggregate.
fn add_aggregates(
    work: &mut [u8],
    query: &[u8],
    aggregates: Span,
    members: Span,
    built: Span,
) -> Result<usize, TooLarge>
    requires { PairsReady (ClassAt members built.from) Fits work.old query.now aggregates built }
    ensures { PairsGrow (ClassAt members built.from) Fits (one_part aggregate_value) work.old work.new query.now aggregates built result }
{
    let last = aggregates.to;
    let base = built.from;
    let mut at = aggregates.from;
    let mut to = built.to;
    while at != last {
        let m = field_end(query, at);
        let pair = Span { from: at, to: m };
        let n = add_aggregate(work, query, pair, members, Span { from: base, to })?;
        to = n;
        at = m;
    }
    Ok(to)
}

/// Adds to the tree so far what the grouping pair gives of the class's first tree.
fn add_identity(
    work: &mut [u8],
    query: &[u8],
    pair: Span,
    first: Span,
    built: Span,
) -> Result<usize, TooLarge>
    requires { PairReady (FirstAt first built.from) Always work.old query.now pair built }
    ensures { PairGrows (FirstAt first built.from) Always (one_part identity_value) work.old work.new query.now pair built result }
{
    let at = pair_at(query, pair);
    let n = heads_room(query, at.target);
    let from = built.from + Limits::TREE;
    let to = from + Limits::TREE;
    let inner = Span { from: from + n, to };
    let r = write_path(work, query, at.source, first, inner);
    let o = place_value(work, query, at.target, Span { from, to }, r);
    add_written(work, built, o)
}

/// The same, if the pair is in the class's subset: a source that is absent adds nothing.
fn add_sourced(
    work: &mut [u8],
    query: &[u8],
    pair: Span,
    first: Span,
    built: Span,
) -> Result<usize, TooLarge>
    requires { PairReady (FirstAt first built.from) Always work.old query.now pair built }
    ensures { PairGrows (FirstAt first built.from) Always sourced_part work.old work.new query.now pair built result }
{
    let at = pair_at(query, pair);
    if !present(query, at.source, 0, work, first) {
        return Ok(built.to);
    }
    add_identity(work, query, pair, first, built)
}

/// The same of each grouping pair.
fn add_identities(
    work: &mut [u8],
    query: &[u8],
    keys: Span,
    first: Span,
    built: Span,
) -> Result<usize, TooLarge>
    requires { PairsReady (FirstAt first built.from) Always work.old query.now keys built }
    ensures { PairsGrow (FirstAt first built.from) Always sourced_part work.old work.new query.now keys built result }
{
    let last = keys.to;
    let base = built.from;
    let mut at = keys.from;
    let mut to = built.to;
    while at != last {
        let m = field_end(query, at);
        let pair = Span { from: at, to: m };
        let n = add_sourced(work, query, pair, first, Span { from: base, to })?;
        to = n;
        at = m;
    }
    Ok(to)
}

/// Makes at `at` the tree of the class and answers where it ends. The class's members stand below `at`, one behind
/// another: the first tree, and those behind it up to `end`. Above `at` three rooms of one tree each are used.
pub fn class_tree(
    work: &mut [u8],
    query: &[u8],
    group: GroupAt,
    first: Span,
    end: usize,
    at: usize,
) -> Result<usize, TooLarge>
    requires { ClassReady work.old query.now group first end at }
    ensures { MakesClass work.old work.new query.now group first end at result }
{
    let begun = Span {
        from: at,
        to: begin(work, at),
    };
    let members = Span {
        from: first.from,
        to: end,
    };
    let to = add_aggregates(work, query, group.aggregates, members, begun)?;
    add_identities(work, query, group.keys, first, Span { from: at, to })
}
