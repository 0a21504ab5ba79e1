//! The collector at the end of the work area: the trees that left a stretch, one behind another. They are the trees
//! of an array without its head, so they may take `Map::TREES` bytes; the last `Map::END` bytes of every lent tail are
//! the collector's.
ghost use Rattle.std.specs.Prelude.{◌≡◌};
ghost use Rattle.stream.specs.Collector.{is_large, CollectReady, Collected};

use areas::area::{TooLarge, copy};
use areas::span::Span;
use map::map::Map;

/// What the collector holds: so many bytes; more than an array may have; or that a tree was too large, which ends the
/// run. The number has two bytes: eight would bring seven of padding, copied in overlapping pieces, for which a
/// processor waits.
#[derive(Clone, Copy)]
pub enum Collector {
    Len(u16),
    Over,
    Large,
}

/// Whether a tree was too large.
pub fn is_large(collector: Collector) -> bool
    ensures { result ≡ is_large collector }
{
    match collector {
        Collector::Len(n) => false,
        Collector::Over => false,
        Collector::Large => true,
    }
}

/// Puts the tree at the front of the tail, up to `end`, behind the bytes that the collector holds, `len` in number.
fn append(tail: &mut [u8], end: usize, len: usize) -> Collector
    requires { CollectReady tail.old end (Collector.Len len) }
    ensures { Collected tail.old tail.new end (Collector.Len len) result }
{
    let base = tail.len() - Map::END;
    let room = Span {
        from: base + len,
        to: base + Map::TREES,
    };
    let Ok(e) = copy(tail, Span { from: 0, to: end }, room) else {
        return Collector::Over;
    };
    Collector::Len((e - base) as u16)
}

/// Gives the tree at the front of the tail, up to `end`, to the collector. That an array got too long is only noted: it
/// is refused only where it enters a group or is the result.
pub fn collect(tail: &mut [u8], end: usize, collector: Collector) -> Collector
    requires { CollectReady tail.old end collector }
    ensures { Collected tail.old tail.new end collector result }
{
    match collector {
        Collector::Len(n) => append(tail, end, n as usize),
        Collector::Over => Collector::Over,
        Collector::Large => Collector::Large,
    }
}
