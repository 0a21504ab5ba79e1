//! Data: which one stands at a place, and where its parts stand.
ghost use Rattle.std.specs.Prelude.{◌+◌, ◌≤◌, length, ◌≡◌};
ghost use Rattle.queries.specs.Places.{TagNot, HoldsAt, data_bytes, divisor_at, ReadsData};

use areas::area::field_end;
use areas::number::two_at;
use areas::span::Span;

/// Data by the places of their parts, as `CriterionAt` has them. A list's members stand one behind another; a reduced's
/// divisor is a number.
#[derive(Clone, Copy)]
pub enum DataAt {
    Literal(Span),
    Path(Span),
    Listed(Span),
    Test(Span),
    Choice(Span, Span, Span),
    Reduced(Span, usize),
}

/// The number that the divisor field at `at` holds.
fn divisor_at(query: &[u8], at: usize) -> usize
    requires { at + 5 ≤ length query.now }
    ensures { result ≡ divisor_at query.now at }
{
    two_at(query, at + 3)
}

/// The data of several parts that stand there: a choice or a reduced.
fn several_at(query: &[u8], datum: Span) -> DataAt
    requires { HoldsAt data_bytes query.now datum × TagNot query.now datum.from 40 × TagNot query.now datum.from 41 × TagNot query.now datum.from 42 × TagNot query.now datum.from 43 }
    ensures { ReadsData query.now datum result }
{
    let at = datum.from;
    let to = datum.to;
    let tag = query[at];
    let m = field_end(query, at + 3);
    let one = Span {
        from: at + 3,
        to: m,
    };
    if tag == 44 {
        let n = field_end(query, m);
        return DataAt::Choice(one, Span { from: m, to: n }, Span { from: n, to });
    }
    let n = divisor_at(query, m);
    DataAt::Reduced(one, n)
}

/// The data that stand there.
pub fn data_at(query: &[u8], datum: Span) -> DataAt
    requires { HoldsAt data_bytes query.now datum }
    ensures { ReadsData query.now datum result }
{
    let at = datum.from;
    let to = datum.to;
    let tag = query[at];
    if tag == 40 {
        return DataAt::Literal(Span { from: at + 6, to });
    }
    let one = Span { from: at + 3, to };
    if tag == 41 {
        return DataAt::Path(one);
    }
    if tag == 42 {
        return DataAt::Listed(one);
    }
    if tag == 43 {
        return DataAt::Test(one);
    }
    several_at(query, datum)
}
