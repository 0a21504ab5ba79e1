//! The trees of the collected array enter an index, one after another: for each tree the last before it with the same
//! slot, which the search for a tree with its key follows back; the next behind it with the same key; and a mark, its
//! subset of the grouping pairs if it begins a class. The classes of each subset are counted. A slot is a hash of the
//! key: what it gets wrong costs time, for which keys are equal is decided by their bytes. Of `<'a>`: see crate
//! `paths`'s `equality`.
ghost use Rattle.std.specs.Prelude.{◌≡◌, ℕ, ◌+◌, ◌≤◌, ◌<◌, length, Some};
ghost use Rattle.spec_trees.specs.Limits.{work_min};
ghost use Rattle.spec_trees.specs.Bytes.{tree_bytes};
ghost use Rattle.areas.specs.Number.{two_at};
ghost use Rattle.queries.specs.Places.{pairs_bytes, HoldsAt, OkAt};
ghost use Rattle.keys.specs.Keys.{FewPairs};
ghost use Rattle.map.specs.Map.{trees_max};
ghost use Rattle.key_index.specs.Index.{base, heads_at, subsets_max, counts_at, count_at, Entering, Collected};
ghost use Rattle.key_index.specs.Entering.{HeadIs, Search, LastIs, MarkIs, Linked, Counted, Enters, Cleared, EntersAll};

use crate::index::Index;
use areas::area::{clear, field_end};
use areas::number::{put_two, two_at};
use areas::span::Span;
use keys::key::{key_hash, same_key, subset};

/// Where the last tree is noted that was entered with the slot of this one.
fn head_of(query: &[u8], keys: Span, work: &[u8], tree: Span) -> usize
    requires { HoldsAt pairs_bytes query.now keys × HoldsAt tree_bytes work.now tree }
    ensures { (heads_at ≤ result) × (result + 2 ≤ counts_at) × HeadIs query.now keys work.now tree result }
{
    Index::HEADS + 2 * (key_hash(query, keys, work, tree) % Index::SLOTS)
}

/// The last tree that was entered with the key of this one, if one was. `last` is the last with its slot, or 0.
fn last_like<'a>(
    work: &'a [u8],
    query: &'a [u8],
    keys: Span,
    tree: Span,
    last: usize,
) -> Option<usize>
    requires { Search work.now query.now keys tree last }
    ensures { LastIs work.now query.now keys tree last result }
{
    let mut at = last;
    while at != 0 {
        let other = Span {
            from: at,
            to: field_end(work, at),
        };
        if same_key(query, keys, work, other, work, tree) {
            return Some(at);
        }
        at = two_at(work, at - Index::BACK);
    }
    None
}

/// The mark of a tree: its subset if none is like it, so that it begins a class, otherwise a number that no subset is.
fn mark_of(query: &[u8], keys: Span, work: &[u8], tree: Span, like: Option<usize>) -> usize
    requires { OkAt FewPairs pairs_bytes query.now keys × HoldsAt tree_bytes work.now tree }
    ensures { (result ≤ subsets_max) × MarkIs query.now keys work.now tree like result }
{
    match like {
        Some(_) => Index::SUBSETS,
        None => subset(query, keys, work, tree),
    }
}

/// The tree `like`, if there is one, gets the tree at `at` as the next with its key.
fn link(work: &mut [u8], like: Option<usize>, at: usize)
    requires { (length work.old ≡ work_min) × ((y : ℕ) → like ≡ Some y → (base ≤ y) × (y ≤ base + trees_max)) × (at < work_min) }
    ensures { Linked work.old work.new like at }
{
    if let Some(like) = like {
        put_two(work, like - Index::NEXT, at);
    }
}

/// One class more of the subset, if the mark is one.
fn count(work: &mut [u8], mark: usize)
    requires { (length work.old ≡ work_min) × (mark < subsets_max → two_at work.old (count_at mark) < trees_max) }
    ensures { Counted work.old work.new mark }
{
    if mark < Index::SUBSETS {
        let at = Index::COUNTS + 2 * mark;
        put_two(work, at, two_at(work, at) + 1);
    }
}

/// Enters the tree, behind those that are entered.
fn enter(work: &mut [u8], query: &[u8], keys: Span, tree: Span)
    requires { Entering work.old query.now keys tree }
    ensures { Enters work.old work.new query.now keys tree }
{
    let at = tree.from;
    let head = head_of(query, keys, work, tree);
    let last = two_at(work, head);
    let like = last_like(work, query, keys, tree, last);
    let mark = mark_of(query, keys, work, tree, like);
    put_two(work, at - Index::BACK, last);
    put_two(work, at - Index::NEXT, 0);
    put_two(work, at - Index::MARK, mark);
    put_two(work, head, at);
    link(work, like, at);
    count(work, mark);
}

/// No tree is entered yet, and no class counted.
fn clear_heads(work: &mut [u8])
    requires { length work.old ≡ work_min }
    ensures { Cleared work.old work.new }
{
    clear(&mut work[Index::HEADS..Index::TREES]);
}

/// Enters the collected trees, which take `len` bytes.
pub fn enter_all(work: &mut [u8], query: &[u8], keys: Span, len: usize)
    requires { Collected work.old query.now keys len }
    ensures { EntersAll work.old work.new query.now keys len }
{
    clear_heads(work);
    let end = Index::TREES + len;
    let mut at = Index::TREES;
    while at != end {
        let m = field_end(work, at);
        enter(work, query, keys, Span { from: at, to: m });
        at = m;
    }
}
