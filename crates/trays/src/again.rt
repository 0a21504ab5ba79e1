//! The pairs that group tray results again: each destination is now also the source. They are written into an area of
//! their own, and read there as those of a query are.
ghost use Rattle.std.specs.Prelude.{◌+◌, ◌≤◌, length};
ghost use Rattle.trays.specs.Again.{WroteTwice, PairRoom, PairWritten, PairsRoom, PairsWritten, GroupRoom, GroupWritten};

use areas::area::{field_end, put_head};
use areas::span::Span;
use queries::item::pair_at;
use queries::stage::GroupAt;

/// Writes the source twice, the copies one behind the other. Both in one loop: the compiler would make calls of `memcpy`
/// of two, which a machine need not have.
fn copy_twice(out: &mut [u8], at: usize, source: &[u8])
    requires { at + length source.now + length source.now ≤ length out.old }
    ensures { WroteTwice out.old out.new at source.now }
{
    let n = source.len();
    for i in 0..n {
        out[at + i] = source[i];
        out[at + n + i] = source[i];
    }
}

/// Writes the pair whose source and destination are the path, from `at` on. Where it ends.
fn write_pair(out: &mut [u8], at: usize, query: &[u8], target: Span) -> usize
    requires { PairRoom out.old at query.now target }
    ensures { PairWritten out.old out.new at query.now target result }
{
    let from = target.from;
    let to = target.to;
    let field = &query[from..to];
    let end = at + 3 + field.len() + field.len();
    copy_twice(out, at + 3, field);
    put_head(out, at, 49, end);
    end
}

/// Writes such a pair for each of the pairs, one behind another, from `at` on. Where the last ends.
fn write_pairs(out: &mut [u8], at: usize, query: &[u8], pairs: Span) -> usize
    requires { PairsRoom out.old at query.now pairs }
    ensures { PairsWritten out.old out.new at query.now pairs result }
{
    let end = pairs.to;
    let mut from = pairs.from;
    let mut to = at;
    while from != end {
        let m = field_end(query, from);
        let pair = pair_at(query, Span { from, to: m });
        to = write_pair(out, to, query, pair.target);
        from = m;
    }
    to
}

/// Writes the pairs of the regrouping of a group: those of its aggregates, and those of its key. Where they stand.
pub fn write_again(out: &mut [u8], query: &[u8], group: GroupAt) -> GroupAt
    requires { GroupRoom out.old query.now group }
    ensures { GroupWritten out.new query.now group result }
{
    let m = write_pairs(out, 0, query, group.aggregates);
    let end = write_pairs(out, m, query, group.keys);
    GroupAt {
        aggregates: Span { from: 0, to: m },
        keys: Span { from: m, to: end },
    }
}
