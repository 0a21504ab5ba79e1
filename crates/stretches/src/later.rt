//! The later stretches: the array that was collected enters the next group, again and again.
ghost use Rattle.stretches.specs.Later.{LastPost, HeldReady, HeldPost, LaterReady, LaterPost};

use crate::ended::Failure;
use areas::span::Span;
use arrange::arrange::arrange;
use classes::fit::totals_fit;
use group_stretch::regroup::regroup;
use stream::collector::Collector;
use stretch::next::{StretchAt, next_group};

/// How a run ends whose last stretch left this in the collector: with an array of so many bytes of trees, or by a failure.
pub fn last(collector: Collector) -> Result<usize, Failure>
    ensures { LastPost collector result }
{
    match collector {
        Collector::Len(n) => Ok(n as usize),
        Collector::Over => Err(Failure::Full),
        Collector::Large => Err(Failure::Large),
    }
}

/// The collected array, of whose trees there are `len` bytes, is arranged at the front class by class, and the classes
/// go through the stages up to the next group, if all their totals fit: no tree is made before that is known.
pub fn next_stretch<'a>(
    work: &mut [u8],
    len: usize,
    query: &'a [u8],
    at: StretchAt,
    joined: &'a [u8],
) -> Result<Collector, Failure>
    requires { HeldReady work.old len query.now at joined.now }
    ensures { HeldPost work.old work.new len query.now at joined.now result }
{
    let group = at.group;
    arrange(work, query, group.keys, len);
    if !totals_fit(work, len, query, group.aggregates) {
        return Err(Failure::Overflow);
    }
    Ok(regroup(work, len, query, at, joined))
}

/// All stretches from the next group on. An array that is too long, and totals that do not fit, are refused only here,
/// where an array enters a group: every tree before it has passed, so none of them was too large.
pub fn later<'a>(
    work: &mut [u8],
    query: &'a [u8],
    stages: Span,
    joined: &'a [u8],
    collector: Collector,
) -> Result<usize, Failure>
    requires { LaterReady work.old query.now stages joined.now collector }
    ensures { LaterPost work.old work.new query.now stages joined.now collector result }
{
    let mut held = collector;
    let mut rest = stages;
    loop {
        let Some(at) = next_group(query, rest) else {
            return last(held);
        };
        match held {
            Collector::Len(n) => {
                held = next_stretch(work, n as usize, query, at, joined)?;
                rest = at.next;
            }
            Collector::Over => return Err(Failure::Long),
            Collector::Large => return Err(Failure::Large),
        }
    }
}
