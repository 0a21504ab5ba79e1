//! A group and the stages behind it. The array that entered the group stands at the front of the work area, arranged
//! class by class: its trees in the first `len` bytes, and behind them a number for each: the position of the tree that
//! begins a class, and 0 for the others. The tree of each class is built behind the front part, `Map::FRONT` bytes, and
//! goes on as soon as it is built: there the tail begins that is lent to the stages. What becomes of it bears the
//! position of the class's first tree. Of `<'a>`: see crate `paths`'s `equality`.
ghost use Rattle.group_stretch.specs.Group.{GroupReady, GroupPost};
ghost use Rattle.group_stretch.specs.Grouping.{ClassFrom, ClassFed};

use areas::area::{TooLarge, field_end};
use areas::number::two_at;
use areas::span::Span;
use classes::read::class_end;
use group::class::class_tree;
use key_index::front::Reached;
use key_index::index::Index;
use map::map::Map;
use stream::collector::{Collector, is_large};
use stream::feed::feed;
use stretch::mark::mark_since;
use stretch::next::StretchAt;

/// The tree of a class, whose totals fit, is built and goes through the stages, in the part of the work area that is lent
/// to them. The class's first tree stands at `first`, and the others behind it up to `end`.
fn feed_class<'a>(
    work: &mut [u8],
    first: Span,
    end: usize,
    query: &'a [u8],
    at: StretchAt,
    joined: &'a [u8],
    collector: Collector,
) -> Collector
    requires { ClassFrom work.old first end query.now at joined.now collector }
    ensures { ClassFed work.old work.new first end query.now at joined.now collector result }
{
    let Ok(o) = class_tree(work, query, at.group, first, end, Map::FRONT) else {
        return Collector::Large;
    };
    feed(
        &mut work[Map::FRONT..],
        o - Map::FRONT,
        query,
        at.next,
        joined,
        collector,
    )
}

/// A group and the stages behind it, over the classes that stand at the front, one after another. Their totals fit.
pub fn regroup<'a>(
    work: &mut [u8],
    len: usize,
    query: &'a [u8],
    at: StretchAt,
    joined: &'a [u8],
) -> Collector
    requires { GroupReady work.old len query.now at joined.now }
    ensures { GroupPost work.old work.new len query.now at joined.now result }
{
    let mut held = Collector::Len(0);
    let mut from = 0;
    let mut count = 0;
    while from != len {
        let m = field_end(work, from);
        let position = two_at(work, Index::NUMBERS + 2 * count);
        let one = Reached {
            to: m,
            count: count + 1,
        };
        let end = class_end(work, one, len);
        let first = Span { from, to: m };
        let next = feed_class(
            &mut work[..Map::LENT],
            first,
            end.to,
            query,
            at,
            joined,
            held,
        );
        if is_large(next) {
            return Collector::Large;
        }
        mark_since(work, held, next, position);
        held = next;
        from = end.to;
        count = end.count;
    }
    held
}
