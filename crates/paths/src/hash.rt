//! The number of what a path gives of a tree, for an index: what is equal has equal numbers, since the number is a
//! function of the value, folded tree by tree. Of other values nothing is said. A path of several labels joins arrays
//! that lie apart, and one value may be cut differently in two trees, so the fold goes on from piece to piece.
ghost use Rattle.std.specs.Prelude.{◌≡◌, ◌+◌, ◌-◌, ◌≤◌, ◌<◌};
ghost use Rattle.spec_trees.specs.Tree.{list};
ghost use Rattle.spec_trees.specs.Bytes.{tree_bytes};
ghost use Rattle.format.specs.Stand.{trees_bytes, Says};
ghost use Rattle.queries.specs.Places.{HoldsAt};
ghost use Rattle.paths.specs.Walk.{given, Walk, Tells, TellsOver};
ghost use Rattle.paths.specs.Hash.{hash_limit, hash_bytes, step_hash, tree_hash, trees_hash, given_hash};

use crate::path::{piece, present, under};
use areas::area::field_end;
use areas::number::wide;
use areas::span::Span;
use queries::path::steps;

/// Numbers are below the limit. The multiplier spreads the numbers of values that differ in few bytes; of a tree only the
/// last bytes count, where trees of one kind differ.
#[derive(Clone, Copy)]
pub struct Hash;

impl Hash {
    pub const LIMIT: usize = 65536;

    const TIMES: usize = 251;

    const BYTES: usize = 16;
}

/// The number with one byte more.
fn hash_byte(number: usize, byte: u8) -> usize
    requires { number < hash_limit }
    ensures { (result < hash_limit) × (result ≡ step_hash number byte) }
{
    (number * Hash::TIMES + wide(byte)) % Hash::LIMIT
}

/// Where the last bytes of the part begin, those that count.
fn last_bytes(part: Span) -> usize
    requires { part.from ≤ part.to }
    ensures { result ≡ part.from + (part.to - part.from - hash_bytes) }
{
    if part.to - part.from <= Hash::BYTES {
        return part.from;
    }
    part.to - Hash::BYTES
}

/// The number with one tree more.
fn hash_tree(area: &[u8], tree: Span, number: usize) -> usize
    requires { HoldsAt tree_bytes area.now tree × (number < hash_limit) }
    ensures { (result < hash_limit) × Says tree_bytes (tree_hash number) area.now tree.from tree.to result }
{
    let from = last_bytes(tree);
    let mut h = number;
    for at in from..tree.to {
        h = hash_byte(h, area[at]);
    }
    h
}

/// The number with the trees of an array more, which stand in one piece.
fn hash_trees(area: &[u8], trees: Span, number: usize) -> usize
    requires { HoldsAt trees_bytes area.now trees × (number < hash_limit) }
    ensures { (result < hash_limit) × Says trees_bytes (λ ts. trees_hash number (list ts)) area.now trees.from trees.to result }
{
    let end = trees.to;
    let mut h = number;
    let mut at = trees.from;
    while at != end {
        let m = field_end(area, at);
        h = hash_tree(area, Span { from: at, to: m }, h);
        at = m;
    }
    h
}

/// The number with the trees more that the path, from step i on, gives of the tree. Absent gives none.
#[cycle(hashing)]
fn hash_walk(query: &[u8], path: Span, i: usize, area: &[u8], tree: Span, number: usize) -> usize
    requires { Walk tree_bytes query.now path i area.now tree × (number < hash_limit) }
    ensures { (result < hash_limit) × Tells query.now path i area.now tree (λ x. result ≡ trees_hash number (given x)) }
{
    if i == steps(query, path) {
        return hash_tree(area, tree, number);
    }
    let Some(part) = under(query, path, i, area, tree) else {
        return number;
    };
    hash_over(query, path, i + 1, area, part, number)
}

/// The same over an array, by its trees: each goes on from the number so far.
#[cycle(hashing)]
fn hash_over(query: &[u8], path: Span, i: usize, area: &[u8], trees: Span, number: usize) -> usize
    requires { Walk trees_bytes query.now path i area.now trees × (number < hash_limit) }
    ensures { (result < hash_limit) × TellsOver query.now path i area.now trees (λ x. result ≡ trees_hash number (given x)) }
{
    let end = trees.to;
    let mut h = number;
    let mut at = trees.from;
    while at != end {
        let m = field_end(area, at);
        h = hash_walk(query, path, i, area, Span { from: at, to: m }, h);
        at = m;
    }
    h
}

/// The number with what the path gives of the tree more. Keys mostly are of one label, which give one piece.
pub fn hash_path(query: &[u8], path: Span, area: &[u8], tree: Span, number: usize) -> usize
    requires { Walk tree_bytes query.now path 0 area.now tree × (number < hash_limit) }
    ensures { (result < hash_limit) × Tells query.now path 0 area.now tree (λ x. result ≡ given_hash number x) }
{
    if steps(query, path) <= 1 {
        let Some(part) = piece(query, path, area, tree) else {
            return hash_byte(number, 0);
        };
        return hash_trees(area, part, hash_byte(number, 1));
    }
    if !present(query, path, 0, area, tree) {
        return hash_byte(number, 0);
    }
    hash_walk(query, path, 0, area, tree, hash_byte(number, 1))
}
