//! Whether the totals of a group fit: of each class, which stand arranged at the front of the work area. It is asked
//! before the tree of any class is made, so that 12 goes before every 8 of the stretch.
ghost use Rattle.queries.specs.Places.{route_bytes, pair_bytes, pairs_bytes, HoldsAt};
ghost use Rattle.classes.specs.Read.{ClassesAt};
ghost use Rattle.classes.specs.Fit.{SourceFits, PairFits, PairsFit};

use crate::read::class_end;
use areas::area::field_end;
use areas::span::Span;
use key_index::front::Reached;
use queries::item::{is_total, pair_at};
use totals::exact::fits_signed;
use totals::over::total_over;

/// Whether the total of the source fits, of each class.
fn source_fits(work: &[u8], len: usize, query: &[u8], source: Span) -> bool
    requires { ClassesAt work.now len × HoldsAt route_bytes query.now source }
    ensures { SourceFits work.now len query.now source result }
{
    let mut from = 0;
    let mut count = 0;
    while from != len {
        let m = field_end(work, from);
        let one = Reached {
            to: m,
            count: count + 1,
        };
        let end = class_end(work, one, len);
        let total = total_over(query, source, work, Span { from, to: end.to });
        if !fits_signed(total) {
            return false;
        }
        from = end.to;
        count = end.count;
    }
    true
}

/// Whether the aggregate's total fits, of each class; one that is no total does.
fn pair_fits(work: &[u8], len: usize, query: &[u8], pair: Span) -> bool
    requires { ClassesAt work.now len × HoldsAt pair_bytes query.now pair }
    ensures { PairFits work.now len query.now pair result }
{
    if is_total(query, pair) {
        let at = pair_at(query, pair);
        return source_fits(work, len, query, at.source);
    }
    true
}

/// Whether each total of the aggregates fits, of each class. Where none is a total, no class is looked at.
pub fn totals_fit(work: &[u8], len: usize, query: &[u8], aggregates: Span) -> bool
    requires { ClassesAt work.now len × HoldsAt pairs_bytes query.now aggregates }
    ensures { PairsFit work.now len query.now aggregates result }
{
    let last = aggregates.to;
    let mut at = aggregates.from;
    while at != last {
        let m = field_end(query, at);
        if !pair_fits(work, len, query, Span { from: at, to: m }) {
            return false;
        }
        at = m;
    }
    true
}
