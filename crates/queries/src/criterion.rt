//! Criteria: which one stands at a place, and where its parts stand.
//! Evaluators hold places, and never look at tags or lengths themselves.
ghost use Rattle.queries.specs.Places.{TagNot, HoldsAt, criterion_bytes, ReadsCriterion};

use areas::area::field_end;
use areas::span::Span;

/// A criterion by the places of its parts. A path's place, and a criterion's, is that of its whole field, an array's
/// that of its trees.
#[derive(Clone, Copy)]
pub enum CriterionAt {
    Always,
    Exists(Span),
    Equal(Span, Span),
    Same(Span, Span),
    Negated(Span),
    Both(Span, Span),
    Either(Span, Span),
}

/// The criterion of two parts that stands there: only these need to look where a part ends.
fn two_at(query: &[u8], criterion: Span) -> CriterionAt
    requires { HoldsAt criterion_bytes query.now criterion × TagNot query.now criterion.from 33 × TagNot query.now criterion.from 34 × TagNot query.now criterion.from 37 }
    ensures { ReadsCriterion query.now criterion result }
{
    let at = criterion.from;
    let to = criterion.to;
    let tag = query[at];
    let m = field_end(query, at + 3);
    let one = Span {
        from: at + 3,
        to: m,
    };
    if tag == 35 {
        return CriterionAt::Equal(one, Span { from: m + 3, to });
    }
    let two = Span { from: m, to };
    if tag == 36 {
        return CriterionAt::Same(one, two);
    }
    if tag == 38 {
        return CriterionAt::Both(one, two);
    }
    CriterionAt::Either(one, two)
}

/// The criterion that stands there.
pub fn criterion_at(query: &[u8], criterion: Span) -> CriterionAt
    requires { HoldsAt criterion_bytes query.now criterion }
    ensures { ReadsCriterion query.now criterion result }
{
    let at = criterion.from;
    let tag = query[at];
    if tag == 33 {
        return CriterionAt::Always;
    }
    let one = Span {
        from: at + 3,
        to: criterion.to,
    };
    if tag == 34 {
        return CriterionAt::Exists(one);
    }
    if tag == 37 {
        return CriterionAt::Negated(one);
    }
    two_at(query, criterion)
}
