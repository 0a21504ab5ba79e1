//! Integer roots, added where their trees stand: of a tree, of trees in one piece, and of the trees that a path gives. A
//! tree's root stands behind its head, so that no other byte of it is looked at.
ghost use Rattle.spec_trees.specs.Bytes.{tree_bytes};
ghost use Rattle.format.specs.Stand.{trees_bytes};
ghost use Rattle.queries.specs.Places.{HoldsAt};
ghost use Rattle.paths.specs.Walk.{given, Walk, Tells, TellsOver};
ghost use Rattle.totals.specs.Sum.{Ready, Summed, AddsTrees, AddsTree, AddsPart};

use crate::exact::{Total, add};
use areas::area::field_end;
use areas::number::word_at;
use areas::span::Span;
use bare::integer::Integer;
use paths::path::under;
use queries::path::steps;

/// The total with the tree's root more, if that is an integer.
fn sum_tree(area: &[u8], tree: Span, total: Total) -> Total
    requires { HoldsAt tree_bytes area.now tree × Ready total tree }
    ensures { Summed total result tree × AddsTree area.now tree total result }
{
    let at = tree.from;
    if area[at + Integer::ROOT] != Integer::TAG {
        return total;
    }
    add(total, word_at(area, at + Integer::BITS))
}

/// The total with the roots more of the trees of an array, which stand in one piece.
pub fn sum_trees(area: &[u8], trees: Span, total: Total) -> Total
    requires { HoldsAt trees_bytes area.now trees × Ready total trees }
    ensures { Summed total result trees × AddsPart area.now trees total result }
{
    let end = trees.to;
    let mut sum = total;
    let mut at = trees.from;
    while at != end {
        let m = field_end(area, at);
        sum = sum_tree(area, Span { from: at, to: m }, sum);
        at = m;
    }
    sum
}

/// The total with the roots more of the trees that the path, from step i on, gives of the tree. Absent gives none.
#[cycle(summing)]
pub fn sum_walk(query: &[u8], path: Span, i: usize, area: &[u8], tree: Span, total: Total) -> Total
    requires { Walk tree_bytes query.now path i area.now tree × Ready total tree }
    ensures { Summed total result tree × Tells query.now path i area.now tree (λ x. AddsTrees total result (given x)) }
{
    if i == steps(query, path) {
        return sum_tree(area, tree, total);
    }
    let Some(part) = under(query, path, i, area, tree) else {
        return total;
    };
    sum_over(query, path, i + 1, area, part, total)
}

/// The same over an array, by its trees: each goes on from the total so far.
#[cycle(summing)]
fn sum_over(query: &[u8], path: Span, i: usize, area: &[u8], trees: Span, total: Total) -> Total
    requires { Walk trees_bytes query.now path i area.now trees × Ready total trees }
    ensures { Summed total result trees × TellsOver query.now path i area.now trees (λ x. AddsTrees total result (given x)) }
{
    let end = trees.to;
    let mut sum = total;
    let mut at = trees.from;
    while at != end {
        let m = field_end(area, at);
        sum = sum_walk(query, path, i, area, Span { from: at, to: m }, sum);
        at = m;
    }
    sum
}
