//! The positions of the trees that a part of a stretch collected.
ghost use Rattle.std.specs.Prelude.{◌≤◌};
ghost use Rattle.spec_trees.specs.Limits.{positions_min};
ghost use Rattle.stretch.specs.Carry.{SinceReady, MarkedSince};

use positions::bear::mark;
use stream::collector::Collector;

/// The trees that were collected since the collector held `before` all stem from the input tree at this position. Where
/// the collector holds more than an array may have, no position will be asked for, and none is written.
pub fn mark_since(work: &mut [u8], before: Collector, after: Collector, position: usize)
    requires { SinceReady work.old before after × (position ≤ positions_min) }
    ensures { MarkedSince work.old work.new before after position }
{
    match before {
        Collector::Len(from) => match after {
            Collector::Len(to) => mark(work, from as usize, to as usize, position),
            Collector::Over => {}
            Collector::Large => {}
        },
        Collector::Over => {}
        Collector::Large => {}
    }
}
