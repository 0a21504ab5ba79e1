//! Equality of what paths give, compared where it stands: absent equals only absent, the empty array is not absent,
//! and the order and the number of the trees count. Nothing is copied. Two that stand in one piece (literals, and
//! what paths of at most one label give) are compared there. Where only one of the two does, the other is walked once
//! beside it, after the walk that finds it present. Two longer paths cost a walk of each of the trees for every tree
//! that they give. Of `<'a>`: a part that is returned from one of two slices needs one lifetime for both, and so do
//! those who call for it.
ghost use Rattle.std.specs.Prelude.{◌≡◌, ◌≤◌};
ghost use Rattle.spec_trees.specs.Bytes.{tree_bytes};
ghost use Rattle.spec_trees.specs.Lists.{same_bytes};
ghost use Rattle.format.specs.Stand.{trees_bytes};
ghost use Rattle.queries.specs.Places.{HoldsAt};
ghost use Rattle.queries.specs.Steps.{step_count};
ghost use Rattle.paths.specs.Walk.{application, given_bytes, is_array, Walk, Tells, TellsBoth, SameNth, EqualsLiteral, FoundInside, SameFound, EqualPaths};

use crate::path::{count, matches_at, nth, operand, piece, present};
use areas::span::Span;
use compare::compare::same_bytes;
use queries::path::steps;

/// A path, which stands in a query, and the tree to which it is applied. Spans by themselves are cheaper to pass on; this
/// is for a function that would else have too many parameters.
#[derive(Clone, Copy)]
pub struct Application {
    pub path: Span,
    pub tree: Span,
}

/// Whether `array` is the bytes of the trees that the path gives of the tree, no fewer and no more.
fn gives(query: &[u8], path: Span, area: &[u8], tree: Span, array: &[u8]) -> bool
    requires { Walk tree_bytes query.now path 0 area.now tree }
    ensures { Tells query.now path 0 area.now tree (λ x. result ≡ same_bytes (given_bytes x) array.now) }
{
    let Some(n) = matches_at(query, path, 0, area, tree, array, 0) else {
        return false;
    };
    n == array.len()
}

/// Whether the path gives of the tree the array whose trees' bytes are `array`.
fn path_is(query: &[u8], path: Span, area: &[u8], tree: Span, array: &[u8]) -> bool
    requires { Walk tree_bytes query.now path 0 area.now tree }
    ensures { Tells query.now path 0 area.now tree (λ x. result ≡ is_array x array.now) }
{
    if steps(query, path) <= 1 {
        let Some(part) = piece(query, path, area, tree) else {
            return false;
        };
        let f = part.from;
        let t = part.to;
        return same_bytes(&area[f..t], array);
    }
    if !present(query, path, 0, area, tree) {
        return false;
    }
    gives(query, path, area, tree, array)
}

/// Whether the path gives of the tree the literal's array, whose trees stand in the query.
pub fn path_equals_literal<'a>(
    query: &'a [u8],
    path: Span,
    literal: Span,
    area: &'a [u8],
    tree: Span,
) -> bool
    requires { Walk tree_bytes query.now path 0 area.now tree × HoldsAt trees_bytes query.now literal }
    ensures { EqualsLiteral query.now path literal area.now tree result }
{
    let array = operand(query, area, true, literal);
    path_is(query, path, area, tree, array)
}

/// Whether tree j of what two applications give is the same, if both give so many.
fn same_nth(
    query: &[u8],
    area: &[u8],
    one: Application,
    area2: &[u8],
    other: Application,
    j: usize,
) -> bool
    requires { Walk tree_bytes query.now one.path 0 area.now one.tree × Walk tree_bytes query.now other.path 0 area2.now other.tree }
    ensures { TellsBoth query.now area.now one area2.now other (SameNth j result) }
{
    let Ok(part) = nth(query, one.path, 0, area, one.tree, j) else {
        return false;
    };
    let Ok(part2) = nth(query, other.path, 0, area2, other.tree, j) else {
        return false;
    };
    let f = part.from;
    let t = part.to;
    let g = part2.from;
    let u = part2.to;
    same_bytes(&area[f..t], &area2[g..u])
}

/// Whether two paths of any length give the same trees, tree by tree. For each tree both are walked from their
/// beginnings.
fn same_elements(
    query: &[u8],
    path: Span,
    area: &[u8],
    tree: Span,
    path2: Span,
    area2: &[u8],
    tree2: Span,
) -> bool
    requires { Walk tree_bytes query.now path 0 area.now tree × Walk tree_bytes query.now path2 0 area2.now tree2 }
    ensures { TellsBoth query.now area.now (application path tree) area2.now (application path2 tree2) (λ x y. result ≡ same_bytes (given_bytes x) (given_bytes y)) }
{
    let n = count(query, path, 0, area, tree);
    if count(query, path2, 0, area2, tree2) != n {
        return false;
    }
    let one = Application { path, tree };
    let other = Application {
        path: path2,
        tree: tree2,
    };
    for j in 0..n {
        if !same_nth(query, area, one, area2, other, j) {
            return false;
        }
    }
    true
}

/// Whether two that were found in one piece, or are missing, are equal.
fn same_found(area: &[u8], first: Option<Span>, area2: &[u8], second: Option<Span>) -> bool
    requires { FoundInside area.now first × FoundInside area2.now second }
    ensures { SameFound area.now first area2.now second result }
{
    let Some(part2) = second else {
        return first.is_none();
    };
    let Some(part) = first else {
        return false;
    };
    let f = part.from;
    let t = part.to;
    let g = part2.from;
    let u = part2.to;
    same_bytes(&area[f..t], &area2[g..u])
}

/// Whether two applications are equal that are both of paths of at most one label: each stands in one piece.
fn same_pieces(
    query: &[u8],
    path: Span,
    area: &[u8],
    tree: Span,
    path2: Span,
    area2: &[u8],
    tree2: Span,
) -> bool
    requires { Walk tree_bytes query.now path 0 area.now tree × (step_count query.now path ≤ 1) × Walk tree_bytes query.now path2 0 area2.now tree2 × (step_count query.now path2 ≤ 1) }
    ensures { EqualPaths query.now area.now (application path tree) area2.now (application path2 tree2) result }
{
    let first = piece(query, path, area, tree);
    let second = piece(query, path2, area2, tree2);
    same_found(area, first, area2, second)
}

/// Whether two applications are equal, of which the second is that of a path of at most one label: what it gives
/// stands in one piece, and the other is looked at beside it.
fn same_as_piece<'a>(
    query: &'a [u8],
    path: Span,
    area: &'a [u8],
    tree: Span,
    path2: Span,
    area2: &'a [u8],
    tree2: Span,
) -> bool
    requires { Walk tree_bytes query.now path 0 area.now tree × Walk tree_bytes query.now path2 0 area2.now tree2 × (step_count query.now path2 ≤ 1) }
    ensures { EqualPaths query.now area.now (application path tree) area2.now (application path2 tree2) result }
{
    let Some(part) = piece(query, path2, area2, tree2) else {
        return !present(query, path, 0, area, tree);
    };
    let array = operand(query, area2, false, part);
    path_is(query, path, area, tree, array)
}

/// Whether two applications are equal, by walks of both trees.
fn same_walks(
    query: &[u8],
    path: Span,
    area: &[u8],
    tree: Span,
    path2: Span,
    area2: &[u8],
    tree2: Span,
) -> bool
    requires { Walk tree_bytes query.now path 0 area.now tree × Walk tree_bytes query.now path2 0 area2.now tree2 }
    ensures { EqualPaths query.now area.now (application path tree) area2.now (application path2 tree2) result }
{
    if !present(query, path, 0, area, tree) {
        return !present(query, path2, 0, area2, tree2);
    }
    if !present(query, path2, 0, area2, tree2) {
        return false;
    }
    same_elements(query, path, area, tree, path2, area2, tree2)
}

/// Whether two applications are equal: of `path` to the tree in `area`, and of `path2` to the tree in `area2`. For two
/// paths of one tree the areas are the same.
pub fn same_paths<'a>(
    query: &'a [u8],
    path: Span,
    area: &'a [u8],
    tree: Span,
    path2: Span,
    area2: &'a [u8],
    tree2: Span,
) -> bool
    requires { Walk tree_bytes query.now path 0 area.now tree × Walk tree_bytes query.now path2 0 area2.now tree2 }
    ensures { EqualPaths query.now area.now (application path tree) area2.now (application path2 tree2) result }
{
    if steps(query, path2) <= 1 {
        return same_as_piece(query, path, area, tree, path2, area2, tree2);
    }
    if steps(query, path) <= 1 {
        return same_as_piece(query, path2, area2, tree2, path, area, tree);
    }
    same_walks(query, path, area, tree, path2, area2, tree2)
}

/// As `same_paths`, for a lookup, which compares each tree with each joined tree: two paths of at most one label, as
/// keys mostly are, are compared before anything else is made ready.
pub fn same_keys<'a>(
    query: &'a [u8],
    path: Span,
    area: &'a [u8],
    tree: Span,
    path2: Span,
    area2: &'a [u8],
    tree2: Span,
) -> bool
    requires { Walk tree_bytes query.now path 0 area.now tree × Walk tree_bytes query.now path2 0 area2.now tree2 }
    ensures { EqualPaths query.now area.now (application path tree) area2.now (application path2 tree2) result }
{
    if steps(query, path2) <= 1 {
        if steps(query, path) <= 1 {
            return same_pieces(query, path, area, tree, path2, area2, tree2);
        }
    }
    same_paths(query, path, area, tree, path2, area2, tree2)
}

/// Whether one path gives the same of two trees: so a group compares a tree with those of its slot.
pub fn same_values<'a>(
    query: &'a [u8],
    path: Span,
    area: &'a [u8],
    tree: Span,
    area2: &'a [u8],
    tree2: Span,
) -> bool
    requires { Walk tree_bytes query.now path 0 area.now tree × Walk tree_bytes query.now path 0 area2.now tree2 }
    ensures { EqualPaths query.now area.now (application path tree) area2.now (application path tree2) result }
{
    if steps(query, path) <= 1 {
        let first = piece(query, path, area, tree);
        let second = piece(query, path, area2, tree2);
        return same_found(area, first, area2, second);
    }
    same_paths(query, path, area, tree, path, area2, tree2)
}
