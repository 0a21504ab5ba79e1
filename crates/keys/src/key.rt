//! The key of a tree in a group: which grouping sources are present, whether two trees have equal source values, and a
//! number that is the same where they do. The pairs stand in the query, one behind another, and are read there for each
//! tree. Nothing is copied.
//! Of `<'a>`: see crate `paths`'s `equality`.
ghost use Rattle.std.specs.Prelude.{◌≡◌, cond, ◌≤◌, ◌<◌};
ghost use Rattle.spec_trees.specs.Bytes.{tree_bytes};
ghost use Rattle.queries.specs.Places.{pair_bytes, pairs_bytes, HoldsAt, OkAt};
ghost use Rattle.keys.specs.Keys.{FewPairs, SourcedIs, SameSourceIs, SubsetIs, AlikeIs, SubsetsIs};
ghost use Rattle.keys.specs.KeyHash.{SourceHashIs, KeyHashIs};
ghost use Rattle.paths.specs.Hash.{hash_limit};

use areas::span::Span;
use format::fields::fields_in;
use paths::equality::same_values;
use paths::hash::hash_path;
use paths::path::present;
use queries::item::pair_at;

/// Whether the source of the pair is present in the tree.
fn sourced(query: &[u8], pair: Span, area: &[u8], tree: Span) -> bool
    requires { HoldsAt pair_bytes query.now pair × HoldsAt tree_bytes area.now tree }
    ensures { SourcedIs query.now pair area.now tree result }
{
    let at = pair_at(query, pair);
    present(query, at.source, 0, area, tree)
}

/// What a pair counts: its weight, if its source is present.
fn counted(there: bool, weight: usize) -> usize
    ensures { (result ≡ cond there weight 0) × (result ≤ weight) }
{
    if there { weight } else { 0 }
}

/// The subset of pairs whose sources are present in the tree, as its sum: pair j counts 2 to the power j, from j = 0.
/// The loop doubles the weight, which for so few pairs stays small.
pub fn subset(query: &[u8], keys: Span, area: &[u8], tree: Span) -> usize
    requires { OkAt FewPairs pairs_bytes query.now keys × HoldsAt tree_bytes area.now tree }
    ensures { SubsetIs query.now keys area.now tree result }
{
    let mut sum: usize = 0;
    let mut weight: usize = 1;
    for pair in fields_in(query, keys) {
        let there = sourced(query, pair, area, tree);
        sum = sum + counted(there, weight);
        weight = weight + weight;
    }
    sum
}

/// Whether the source of the pair gives the same of two trees.
fn same_source<'a>(
    query: &'a [u8],
    pair: Span,
    area: &'a [u8],
    tree: Span,
    area2: &'a [u8],
    tree2: Span,
) -> bool
    requires { HoldsAt pair_bytes query.now pair × HoldsAt tree_bytes area.now tree × HoldsAt tree_bytes area2.now tree2 }
    ensures { SameSourceIs query.now pair area.now tree area2.now tree2 result }
{
    let at = pair_at(query, pair);
    same_values(query, at.source, area, tree, area2, tree2)
}

/// Whether two trees have equal source values. `area2` may be `area`.
pub fn same_key<'a>(
    query: &'a [u8],
    keys: Span,
    area: &'a [u8],
    tree: Span,
    area2: &'a [u8],
    tree2: Span,
) -> bool
    requires { HoldsAt pairs_bytes query.now keys × HoldsAt tree_bytes area.now tree × HoldsAt tree_bytes area2.now tree2 }
    ensures { AlikeIs query.now keys area.now tree area2.now tree2 result }
{
    for pair in fields_in(query, keys) {
        if !same_source(query, pair, area, tree, area2, tree2) {
            return false;
        }
    }
    true
}

/// The number with the source of the pair in the tree more.
fn hash_source(query: &[u8], pair: Span, area: &[u8], tree: Span, number: usize) -> usize
    requires { HoldsAt pair_bytes query.now pair × HoldsAt tree_bytes area.now tree × (number < hash_limit) }
    ensures { SourceHashIs number query.now pair area.now tree result × (result < hash_limit) }
{
    let at = pair_at(query, pair);
    hash_path(query, at.source, area, tree, number)
}

/// The number of the tree's key. Trees with equal source values have equal numbers.
pub fn key_hash(query: &[u8], keys: Span, area: &[u8], tree: Span) -> usize
    requires { HoldsAt pairs_bytes query.now keys × HoldsAt tree_bytes area.now tree }
    ensures { KeyHashIs query.now keys area.now tree result × (result < hash_limit) }
{
    let mut h: usize = 0;
    for pair in fields_in(query, keys) {
        h = hash_source(query, pair, area, tree, h);
    }
    h
}

/// How many subsets the grouping pairs have: 2 for each pair, multiplied.
pub fn subsets(query: &[u8], keys: Span) -> usize
    requires { OkAt FewPairs pairs_bytes query.now keys }
    ensures { SubsetsIs query.now keys result }
{
    let mut n: usize = 1;
    for _pair in fields_in(query, keys) {
        n = n + n;
    }
    n
}
