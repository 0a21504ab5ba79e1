//! What a tree says through a path, read where the tree stands: whether the application is absent, how many trees it
//! gives, each of them as a part of the tree, and whether their bytes stand elsewhere. Nothing is copied. A path goes
//! step by step: a label is looked for among the labels of one tree, and the trees under it follow each other by
//! their heads. No tree is entered twice, so that a call costs at most one walk of the tree, whatever the path's
//! length.
ghost use Rattle.std.specs.Prelude.{◌≡◌, cond, ◌+◌, ◌-◌, ◌≤◌, ◌<◌, length};
ghost use Rattle.std.proofs.Math.Seq.{slice};
ghost use Rattle.spec_trees.specs.Bytes.{tree_bytes};
ghost use Rattle.format.specs.Stand.{trees_bytes, FoundIs};
ghost use Rattle.queries.specs.Places.{HoldsAt};
ghost use Rattle.queries.specs.Steps.{step_count, StepInside};
ghost use Rattle.spec_stages.specs.Paths as paths;
ghost use Rattle.paths.specs.Walk.{given, given_bytes, Walk, Tells, TellsOver, Under, ElementIs, ComparedIs, OperandIs};

use areas::area::field_end;
use areas::span::Span;
use compare::compare::same_bytes;
use format::labels::find;
use queries::path::{step_at, steps};

/// Where the trees stand that step i of the path reaches: those that the tree holds under its label.
pub fn under(query: &[u8], path: Span, i: usize, area: &[u8], tree: Span) -> Option<Span>
    requires { StepInside query.now path i × HoldsAt tree_bytes area.now tree }
    ensures { Under query.now path i area.now tree result }
{
    let l = field_end(area, tree.from + 3);
    find(
        area,
        Span {
            from: l,
            to: tree.to,
        },
        step_at(query, path, i),
    )
}

/// Whether the path, from step i on, gives an array of the tree: whether it is not absent.
#[cycle(presence)]
pub fn present(query: &[u8], path: Span, i: usize, area: &[u8], tree: Span) -> bool
    requires { Walk tree_bytes query.now path i area.now tree }
    ensures { Tells query.now path i area.now tree (λ x. result ≡ paths.present x) }
{
    if i == steps(query, path) {
        return true;
    }
    let Some(part) = under(query, path, i, area, tree) else {
        return false;
    };
    present_over(query, path, i + 1, area, part)
}

/// The same over an array, by its trees. Over an empty array the path is present.
#[cycle(presence)]
fn present_over(query: &[u8], path: Span, i: usize, area: &[u8], trees: Span) -> bool
    requires { Walk trees_bytes query.now path i area.now trees }
    ensures { TellsOver query.now path i area.now trees (λ x. result ≡ paths.present x) }
{
    let end = trees.to;
    let mut at = trees.from;
    if at == end {
        return true;
    }
    while at != end {
        let m = field_end(area, at);
        if present(query, path, i, area, Span { from: at, to: m }) {
            return true;
        }
        at = m;
    }
    false
}

/// How many trees the path, from step i on, gives of the tree. Absent gives none.
#[cycle(counting)]
pub fn count(query: &[u8], path: Span, i: usize, area: &[u8], tree: Span) -> usize
    requires { Walk tree_bytes query.now path i area.now tree }
    ensures { (result ≤ tree.to - tree.from) × Tells query.now path i area.now tree (λ x. result ≡ length (given x)) }
{
    if i == steps(query, path) {
        return 1;
    }
    let Some(part) = under(query, path, i, area, tree) else {
        return 0;
    };
    count_over(query, path, i + 1, area, part)
}

/// The same over an array, by its trees.
#[cycle(counting)]
fn count_over(query: &[u8], path: Span, i: usize, area: &[u8], trees: Span) -> usize
    requires { Walk trees_bytes query.now path i area.now trees }
    ensures { (result ≤ trees.to - trees.from) × TellsOver query.now path i area.now trees (λ x. result ≡ length (given x)) }
{
    let end = trees.to;
    let mut n: usize = 0;
    let mut at = trees.from;
    while at != end {
        let m = field_end(area, at);
        n = n + count(query, path, i, area, Span { from: at, to: m });
        at = m;
    }
    n
}

/// Where tree j stands, counted from 0, of those that the path, from step i on, gives of the tree; or that there are
/// fewer, with what is left of its number when all are passed.
#[cycle(finding)]
pub fn nth(
    query: &[u8],
    path: Span,
    i: usize,
    area: &[u8],
    tree: Span,
    j: usize,
) -> Result<Span, usize>
    requires { Walk tree_bytes query.now path i area.now tree }
    ensures { Tells query.now path i area.now tree (λ x. ElementIs area.now tree j (given x) result) }
{
    if i == steps(query, path) {
        if j == 0 {
            return Ok(tree);
        }
        return Err(j - 1);
    }
    let Some(part) = under(query, path, i, area, tree) else {
        return Err(j);
    };
    nth_over(query, path, i + 1, area, part, j)
}

/// The same over an array, by its trees.
#[cycle(finding)]
fn nth_over(
    query: &[u8],
    path: Span,
    i: usize,
    area: &[u8],
    trees: Span,
    j: usize,
) -> Result<Span, usize>
    requires { Walk trees_bytes query.now path i area.now trees }
    ensures { TellsOver query.now path i area.now trees (λ x. ElementIs area.now trees j (given x) result) }
{
    let end = trees.to;
    let mut left = j;
    let mut at = trees.from;
    while at != end {
        let m = field_end(area, at);
        let r = nth(query, path, i, area, Span { from: at, to: m }, left);
        let Err(n) = r else {
            return r;
        };
        left = n;
        at = m;
    }
    Err(left)
}

/// Where the bytes of the part of `area` end, if they stand in `other` from `at` on.
fn stands_at(area: &[u8], part: Span, other: &[u8], at: usize) -> Option<usize>
    requires { (part.from ≤ part.to) × (part.to ≤ length area.now) × (at ≤ length other.now) }
    ensures { ComparedIs other.now at (slice part.from part.to area.now) result }
{
    let from = part.from;
    let to = part.to;
    let n = to - from;
    if other.len() - at < n {
        return None;
    }
    if same_bytes(&area[from..to], &other[at..at + n]) {
        return Some(at + n);
    }
    None
}

/// Where the bytes of the trees end that the path, from step i on, gives of the tree, if they stand in `other` from `at`
/// on.
#[cycle(matching)]
pub fn matches_at(
    query: &[u8],
    path: Span,
    i: usize,
    area: &[u8],
    tree: Span,
    other: &[u8],
    at: usize,
) -> Option<usize>
    requires { Walk tree_bytes query.now path i area.now tree × (at ≤ length other.now) }
    ensures { Tells query.now path i area.now tree (λ x. ComparedIs other.now at (given_bytes x) result) }
{
    if i == steps(query, path) {
        return stands_at(area, tree, other, at);
    }
    let Some(part) = under(query, path, i, area, tree) else {
        return Some(at);
    };
    matches_over(query, path, i + 1, area, part, other, at)
}

/// The same over an array, by its trees.
#[cycle(matching)]
fn matches_over(
    query: &[u8],
    path: Span,
    i: usize,
    area: &[u8],
    trees: Span,
    other: &[u8],
    at: usize,
) -> Option<usize>
    requires { Walk trees_bytes query.now path i area.now trees × (at ≤ length other.now) }
    ensures { TellsOver query.now path i area.now trees (λ x. ComparedIs other.now at (given_bytes x) result) }
{
    let end = trees.to;
    let mut n = at;
    let mut from = trees.from;
    while from != end {
        let m = field_end(area, from);
        let k = matches_at(query, path, i, area, Span { from, to: m }, other, n)?;
        n = k;
        from = m;
    }
    Some(n)
}

/// Where what a path of at most one label gives of the tree stands, in one piece; or that it is absent.
pub fn piece(query: &[u8], path: Span, area: &[u8], tree: Span) -> Option<Span>
    requires { Walk tree_bytes query.now path 0 area.now tree × (step_count query.now path ≤ 1) }
    ensures { Tells query.now path 0 area.now tree (λ x. FoundIs area.now tree x result) }
{
    if steps(query, path) == 0 {
        return Some(tree);
    }
    under(query, path, 0, area, tree)
}

/// The array that stands there in one piece: a literal's in the query, or what a path of at most one label gives,
/// which is a part of the tree.
pub fn operand<'a>(query: &'a [u8], area: &'a [u8], literal: bool, trees: Span) -> &'a [u8]
    requires { HoldsAt trees_bytes (cond literal query.now area.now) trees }
    ensures { OperandIs (cond literal query.now area.now) trees result.now }
{
    let from = trees.from;
    let to = trees.to;
    if literal {
        return &query[from..to];
    }
    &area[from..to]
}
