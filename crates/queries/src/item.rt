//! What a project merges, and the pairs of a group: where their parts stand.
ghost use Rattle.queries.specs.Places.{HoldsAt, item_bytes, pair_bytes, ReadsItem, ReadsPair, TotalIs};

use areas::area::field_end;
use areas::span::Span;

/// An item by the places of its parts, as `CriterionAt` has them.
#[derive(Clone, Copy)]
pub enum ItemAt {
    Keep(Span),
    Place(Span, Span),
}

/// The places of a pair's two paths.
#[derive(Clone, Copy)]
pub struct PairAt {
    pub source: Span,
    pub target: Span,
}

/// The item that stands there.
pub fn item_at(query: &[u8], item: Span) -> ItemAt
    requires { HoldsAt item_bytes query.now item }
    ensures { ReadsItem query.now item result }
{
    let at = item.from;
    let to = item.to;
    let tag = query[at];
    if tag == 47 {
        return ItemAt::Keep(Span { from: at + 3, to });
    }
    let m = field_end(query, at + 3);
    ItemAt::Place(
        Span {
            from: at + 3,
            to: m,
        },
        Span { from: m, to },
    )
}

/// The pair that stands there.
pub fn pair_at(query: &[u8], pair: Span) -> PairAt
    requires { HoldsAt pair_bytes query.now pair }
    ensures { ReadsPair query.now pair result }
{
    let at = pair.from;
    let m = field_end(query, at + 3);
    PairAt {
        source: Span {
            from: at + 3,
            to: m,
        },
        target: Span {
            from: m,
            to: pair.to,
        },
    }
}

/// Whether the pair that stands there is a total.
pub fn is_total(query: &[u8], pair: Span) -> bool
    requires { HoldsAt pair_bytes query.now pair }
    ensures { TotalIs query.now pair result }
{
    let at = pair.from;
    query[at] == 54
}
