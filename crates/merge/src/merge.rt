//! The merge of two trees that stand in one lent area, written above them. Labels rise in both, so two places move
//! over them, and each byte of the result is written once, from the first to the last; a field's head is stored when
//! its content is written.
ghost use Rattle.std.specs.Prelude.{◌≡◌, cond, ltb};
ghost use Rattle.spec_trees.specs.Bytes.{tree_bytes};
ghost use Rattle.format.specs.Stand.{root_bytes, labels_bytes, trees_bytes};
ghost use Rattle.spec_stages.specs.Merge.{merge_root};
ghost use Rattle.spec_stages.specs.MergeTwo.{merge_two, merge_two_l, merge_two_a, merge_entry, merge_first};
ghost use Rattle.merge.specs.MergeBytes.{MergeReady, Merged, TreesMerged, entry_of};

use areas::area::{TooLarge, copy, field_end, finish};
use areas::span::Span;
use format::labels::{heads, label_at, trees_at};

/// Merges two trees, which both stand below the room, and writes the merge there.
pub fn merge_tree(work: &mut [u8], one: Span, other: Span, room: Span) -> Result<usize, TooLarge>
    requires { MergeReady tree_bytes work.old one other room }
    ensures { TreesMerged work.old work.new one other room result }
{
    merge_node(work, one, other, room)
}

/// The root of the second tree, unless it is void.
fn merge_root(work: &mut [u8], one: Span, other: Span, room: Span) -> Result<usize, TooLarge>
    requires { MergeReady root_bytes work.old one other room }
    ensures { Merged root_bytes merge_root work.old work.new one other room result }
{
    let at = other.from;
    if work[at] == 3 {
        copy(work, one, room)
    } else {
        copy(work, other, room)
    }
}

/// The merge of two trees: a root and labels.
#[cycle(merging)]
fn merge_node(work: &mut [u8], one: Span, other: Span, room: Span) -> Result<usize, TooLarge>
    requires { MergeReady tree_bytes work.old one other room }
    ensures { Merged tree_bytes merge_two work.old work.new one other room result }
{
    let end = one.to;
    let end2 = other.to;
    let stop = room.to;
    if stop - room.from < 3 {
        return Err(TooLarge);
    }
    let s = one.from + 3;
    let t = other.from + 3;
    let d = room.from + 3;
    let m = field_end(work, s);
    let n = field_end(work, t);
    let e = merge_root(
        work,
        Span { from: s, to: m },
        Span { from: t, to: n },
        Span { from: d, to: stop },
    )?;
    let all = merge_labels(
        work,
        Span { from: m, to: end },
        Span { from: n, to: end2 },
        Span { from: e, to: stop },
    );
    finish(work, room.from, 2, all)
}

/// `below` where the label is less than the bound, else `otherwise`.
fn choose(label: u16, bound: u16, below: usize, otherwise: usize) -> usize
    ensures { result ≡ cond (ltb label bound) below otherwise }
{
    if label < bound { below } else { otherwise }
}

/// All labels of both. The place of the greater of two labels stays as it is.
#[cycle(merging)]
fn merge_labels(work: &mut [u8], one: Span, other: Span, room: Span) -> Result<usize, TooLarge>
    requires { MergeReady labels_bytes work.old one other room }
    ensures { Merged labels_bytes merge_two_l work.old work.new one other room result }
{
    let end = one.to;
    let end2 = other.to;
    let stop = room.to;
    let mut p = one.from;
    let mut q = other.from;
    let mut at = room.from;
    while p != end {
        let left = Span { from: at, to: stop };
        if q == end2 {
            return copy(work, Span { from: p, to: end }, left);
        }
        let m = field_end(work, p);
        let n = field_end(work, q);
        let x = label_at(work, p);
        let y = label_at(work, q);
        let e = merge_first(work, Span { from: p, to: m }, Span { from: q, to: n }, left)?;
        p = choose(y, x, p, m);
        q = choose(x, y, q, n);
        at = e;
    }
    let rest = Span { from: q, to: end2 };
    copy(work, rest, Span { from: at, to: stop })
}

/// The first label of a merge, with its array: the lesser of two, or both merged.
#[cycle(merging)]
fn merge_first(work: &mut [u8], one: Span, other: Span, room: Span) -> Result<usize, TooLarge>
    requires { MergeReady entry_of work.old one other room }
    ensures { Merged entry_of merge_first work.old work.new one other room result }
{
    let x = label_at(work, one.from);
    let y = label_at(work, other.from);
    if x < y {
        return copy(work, one, room);
    }
    if y < x {
        return copy(work, other, room);
    }
    merge_entry(work, one, other, room)
}

/// A label that both have, with the two arrays merged. The label is copied as it stands, and n bytes go before the
/// trees.
#[cycle(merging)]
fn merge_entry(work: &mut [u8], one: Span, other: Span, room: Span) -> Result<usize, TooLarge>
    requires { MergeReady entry_of work.old one other room }
    ensures { Merged entry_of merge_entry work.old work.new one other room result }
{
    let i = one.from;
    let end = one.to;
    let end2 = other.to;
    let d = room.from;
    let stop = room.to;
    let n = heads(label_at(work, i));
    let x = i + n;
    let y = trees_at(work, other.from);
    if stop - d < n {
        return Err(TooLarge);
    }
    let at = d + n;
    let tag = work[i];
    let label = Span {
        from: i + 3,
        to: x - 3,
    };
    let front = Span {
        from: d + 3,
        to: stop,
    };
    let _ = copy(work, label, front);
    let trees = merge_trees(
        work,
        Span { from: x, to: end },
        Span { from: y, to: end2 },
        Span { from: at, to: stop },
    );
    let array = finish(work, at - 3, 1, trees);
    finish(work, d, tag, array)
}

/// Two arrays position by position, and the surplus of the longer.
#[cycle(merging)]
fn merge_trees(work: &mut [u8], one: Span, other: Span, room: Span) -> Result<usize, TooLarge>
    requires { MergeReady trees_bytes work.old one other room }
    ensures { Merged trees_bytes merge_two_a work.old work.new one other room result }
{
    let end = one.to;
    let end2 = other.to;
    let stop = room.to;
    let mut a = one.from;
    let mut b = other.from;
    let mut at = room.from;
    while a != end {
        let left = Span { from: at, to: stop };
        if b == end2 {
            return copy(work, Span { from: a, to: end }, left);
        }
        let m = field_end(work, a);
        let n = field_end(work, b);
        let e = merge_node(work, Span { from: a, to: m }, Span { from: b, to: n }, left)?;
        a = m;
        b = n;
        at = e;
    }
    let rest = Span { from: b, to: end2 };
    copy(work, rest, Span { from: at, to: stop })
}
