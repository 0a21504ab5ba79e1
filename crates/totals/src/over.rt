//! The total over an array: the integer roots of the trees that a path gives of each tree, added. Nothing is copied.
ghost use Rattle.std.specs.Prelude.{◌≤◌, length};
ghost use Rattle.spec_trees.specs.Limits.{work_min};
ghost use Rattle.spec_trees.specs.Bytes.{tree_bytes};
ghost use Rattle.format.specs.Stand.{trees_bytes};
ghost use Rattle.paths.specs.Walk.{given, Walk, Tells};
ghost use Rattle.totals.specs.Sum.{Ready, Summed, AddsTrees, TotalOver};

use crate::exact::{Total, nothing};
use crate::sum::{sum_trees, sum_walk};
use areas::area::field_end;
use areas::span::Span;
use paths::path::piece;
use queries::path::steps;

/// The total with the roots more of the trees that the path gives of the tree. A path of at most one label, as most
/// totals have, gives them in one piece.
fn sum_path(query: &[u8], path: Span, area: &[u8], tree: Span, total: Total) -> Total
    requires { Walk tree_bytes query.now path 0 area.now tree × Ready total tree }
    ensures { Summed total result tree × Tells query.now path 0 area.now tree (λ x. AddsTrees total result (given x)) }
{
    if steps(query, path) <= 1 {
        let Some(part) = piece(query, path, area, tree) else {
            return total;
        };
        return sum_trees(area, part, total);
    }
    sum_walk(query, path, 0, area, tree, total)
}

/// The total of the integer roots that the path gives over the array.
pub fn total_over(query: &[u8], path: Span, area: &[u8], trees: Span) -> Total
    requires { Walk trees_bytes query.now path 0 area.now trees × (length area.now ≤ work_min) }
    ensures { TotalOver query.now path area.now trees result }
{
    let end = trees.to;
    let mut sum = nothing();
    let mut at = trees.from;
    while at != end {
        let m = field_end(area, at);
        sum = sum_path(query, path, area, Span { from: at, to: m }, sum);
        at = m;
    }
    sum
}
