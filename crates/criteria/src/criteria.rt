//! Whether a tree meets a criterion, both read where they stand. The functions call each other in a cycle, as
//! criteria hold criteria. `left` is how deep criteria may still nest; it falls where one is entered, so that an
//! evaluation ends and its depth is bounded. Of `<'a>`: see crate `paths`'s `equality`.
ghost use Rattle.std.specs.Prelude.{◌&&◌, ◌||◌};
ghost use Rattle.criteria.specs.Meets.{Evaluable, EvaluableTwo, Meets, MeetsTwo};

use areas::span::Span;
use paths::equality::{path_equals_literal, same_paths};
use paths::path::present;
use queries::criterion::{CriterionAt, criterion_at};

/// Whether the tree meets the criterion.
#[cycle(judging)]
pub fn holds<'a>(query: &'a [u8], criterion: Span, area: &'a [u8], tree: Span, left: usize) -> bool
    requires { Evaluable query.now criterion area.now tree left }
    ensures { Meets query.now criterion area.now tree left result }
{
    // a parameter handed on whole is copied 16 bytes at once, for which the processor waits: so `asked` and `at`
    let asked = Span {
        from: criterion.from,
        to: criterion.to,
    };
    let at = Span {
        from: tree.from,
        to: tree.to,
    };
    let read = criterion_at(query, asked);
    match read {
        CriterionAt::Always => {
            return true;
        }
        CriterionAt::Exists(path) => {
            return present(query, path, 0, area, at);
        }
        CriterionAt::Equal(path, literal) => {
            return path_equals_literal(query, path, literal, area, at);
        }
        CriterionAt::Same(one, two) => {
            return same_paths(query, one, area, at, two, area, at);
        }
        CriterionAt::Negated(one) => {
            return !holds(query, one, area, at, left - 1);
        }
        CriterionAt::Both(one, two) => {
            return holds_both(query, one, two, area, at, left - 1);
        }
        CriterionAt::Either(one, two) => {
            return holds_either(query, one, two, area, at, left - 1);
        }
    }
}

/// Whether the tree meets both criteria. The second is looked at only if the first is met.
#[cycle(judging)]
fn holds_both<'a>(
    query: &'a [u8],
    one: Span,
    two: Span,
    area: &'a [u8],
    tree: Span,
    left: usize,
) -> bool
    requires { EvaluableTwo query.now one two area.now tree left }
    ensures { MeetsTwo ◌&&◌ query.now one two area.now tree left result }
{
    holds(query, one, area, tree, left) && holds(query, two, area, tree, left)
}

/// Whether the tree meets one of the two. The second is looked at only if the first is not met.
#[cycle(judging)]
fn holds_either<'a>(
    query: &'a [u8],
    one: Span,
    two: Span,
    area: &'a [u8],
    tree: Span,
    left: usize,
) -> bool
    requires { EvaluableTwo query.now one two area.now tree left }
    ensures { MeetsTwo ◌||◌ query.now one two area.now tree left result }
{
    holds(query, one, area, tree, left) || holds(query, two, area, tree, left)
}
