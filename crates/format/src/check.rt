//! The check of an array: one walk over its bytes, which reads nothing outside them and ends on any.
//! Each function answers whether the readers of `specs/Decode.antt` read the bytes, for ALL bytes, so the checker is
//! right by equations and not by cases that somebody thought of.
//! The walk passes trees and enters labels in one loop. It calls itself only for a tree that has labels, so that the
//! trees without, which are most, cost no call. `left` is how many levels of trees may still stand; it falls where a
//! tree's labels are entered, so the walk ends however the bytes nest.
ghost use Rattle.std.specs.Prelude.{◌≡◌, true, ◌≤◌, ◌<◌, length};
ghost use Rattle.std.proofs.Math.Seq.{slice};
ghost use Rattle.format.specs.Check.{root_ok, array_ok, input_ok, check_of, place, rest_ok, Stepped, Passes, Enters, BareAt};
ghost use Rattle.spec_trees.specs.Decode.{read_array};

use crate::labels::{TAG, label_at};
use crate::limits::Limits;
use crate::{head, view};
use areas::span::Span;

/// Why a lent piece, an array or a query, is refused.
#[derive(Clone, Copy, Debug, PartialEq, Eq)]
pub enum Fault {
    Overlong,
    Malformed,
}

/// A boolean's content: one byte, 0 or 1.
fn check_bit(area: &[u8], content: Span) -> bool
    requires { (content.from ≤ content.to) × (content.to ≤ length area.now) }
    ensures { result ≡ root_ok (4, slice content.from content.to area.now) }
{
    let at = content.from;
    if content.to - at == 1 {
        area[at] < 2
    } else {
        false
    }
}

/// A root field: by its tag, what its content may be. Integers, which are most, go first.
fn check_root(area: &[u8], tag: u8, content: Span) -> bool
    requires { (content.from ≤ content.to) × (content.to ≤ length area.now) }
    ensures { result ≡ root_ok (tag, slice content.from content.to area.now) }
{
    let len = content.to - content.from;
    if len == 8 {
        if tag == 5 {
            return true;
        }
        return tag == 6;
    }
    if tag == 3 {
        return len == 0;
    }
    if tag == 4 {
        return check_bit(area, content);
    }
    if tag == 6 {
        return len <= Limits::TEXT;
    }
    false
}

/// Where the walk stands: among trees that end at `stop`, behind which labels above `last` follow.
#[derive(Clone, Copy)]
pub struct Place {
    pub at: usize,
    pub stop: usize,
    pub last: u16,
}

/// What stands at a place: a label or a tree without labels, and the place behind its heads or behind the tree; a tree
/// with labels, and where they stand; nothing more; or nothing that may stand there.
#[derive(Clone, Copy)]
pub enum Step {
    On(Place),
    Labels(Span),
    Done,
    Bad,
}

/// Trees, and behind them labels up to `end`, where `left` levels of trees may stand.
fn check_rest(area: &[u8], trees: Span, end: usize, left: usize) -> bool
    requires { (trees.from ≤ trees.to) × (trees.to ≤ end) × (end ≤ length area.now) }
    ensures { result ≡ rest_ok left area.now (place trees.from trees.to 0) end }
{
    let mut p = Place {
        at: trees.from,
        stop: trees.to,
        last: 0,
    };
    loop {
        let s = take_step(area, p, end, left);
        match s {
            Step::On(next) => {
                p = next;
            }
            Step::Labels(labels) => {
                let none = Span {
                    from: labels.from,
                    to: labels.from,
                };
                // A new slice: one handed on is copied whole right behind two half stores, and the processor waits.
                if check_rest(&area[..], none, labels.to, left - 1) {
                    p.at = labels.to;
                } else {
                    return false;
                }
            }
            Step::Done => {
                return true;
            }
            Step::Bad => {
                return false;
            }
        }
    }
}

/// One step of the walk. The trees that most trees are, a bare integer and a bare void, are known by their heads alone.
fn take_step(area: &[u8], p: Place, end: usize, left: usize) -> Step
    requires { (p.at ≤ p.stop) × (p.stop ≤ end) × (end ≤ length area.now) }
    ensures { Stepped left area.now p end result }
{
    let at = p.at;
    let stop = p.stop;
    if at == stop {
        return enter_label(area, p, end);
    }
    if left == 0 {
        return Step::Bad;
    }
    if is_bare(area, at, stop, 5, 8) {
        return Step::On(Place { at: at + 14, ..p });
    }
    if is_bare(area, at, stop, 3, 0) {
        return Step::On(Place { at: at + 6, ..p });
    }
    pass_tree(area, p)
}

/// Whether the heads at `at` are those of a tree and of its root, with this tag and this many bytes of content, and no
/// label has room behind it.
fn is_bare(area: &[u8], at: usize, stop: usize, tag: usize, len: usize) -> bool
    requires { (at ≤ stop) × (stop ≤ length area.now) × (tag < 256) × (len < 253) }
    ensures { result ≡ true → BareAt area.now at stop tag len }
{
    if stop - at < 6 + len {
        return false;
    }
    if head::low_four(area, at) != 2 + (3 + len) * 65536 + tag * 16777216 {
        return false;
    }
    head::low_two(area, at + 4) == len * 256
}

/// A tree: within its limit, one root, then labels, or none.
fn pass_tree(area: &[u8], p: Place) -> Step
    requires { (p.at < p.stop) × (p.stop ≤ length area.now) }
    ensures { Passes area.now p result }
{
    let Some(tree) = head::head_at(area, p.at, p.stop) else {
        return Step::Bad;
    };
    if tree.tag != 2 {
        return Step::Bad;
    }
    let Span { from, to } = tree.content;
    if Limits::TREE - 3 < to - from {
        return Step::Bad;
    }
    let Some(root) = head::head_at(area, from, to) else {
        return Step::Bad;
    };
    if !check_root(area, root.tag, root.content) {
        return Step::Bad;
    }
    let labels = root.content.to;
    if labels == to {
        return Step::On(Place { at: to, ..p });
    }
    Step::Labels(Span { from: labels, to })
}

/// Behind the trees: the end, or a label above the one before it, so that none is repeated, and one array field that
/// spans the rest of the label's.
fn enter_label(area: &[u8], p: Place, end: usize) -> Step
    requires { (p.at ≡ p.stop) × (p.stop ≤ end) × (end ≤ length area.now) }
    ensures { Enters area.now p end result }
{
    let at = p.stop;
    if at == end {
        return Step::Done;
    }
    let Some(field) = head::head_at(area, at, end) else {
        return Step::Bad;
    };
    if field.tag != TAG {
        return Step::Bad;
    }
    let to = field.content.to;
    if to - at < 7 {
        return Step::Bad;
    }
    let label = label_at(area, at);
    if label <= p.last {
        return Step::Bad;
    }
    if Limits::LABEL < label_number(label) {
        return Step::Bad;
    }
    let Some(array) = head::spanning_at(area, at + 4, to) else {
        return Step::Bad;
    };
    if array.tag != 1 {
        return Step::Bad;
    }
    Step::On(Place {
        at: array.content.from,
        stop: to,
        last: label,
    })
}

/// An array field by its tag and content, wherever it stands: an input, under a label, or in a query.
pub fn check_array_field(area: &[u8], tag: u8, content: Span, left: usize) -> bool
    requires { (content.from ≤ content.to) × (content.to ≤ length area.now) }
    ensures { result ≡ array_ok left (tag, slice content.from content.to area.now) }
{
    if tag == 1 {
        check_rest(area, content, content.to, left)
    } else {
        false
    }
}

/// A label as a number, to be set beside its limit.
fn label_number(label: u16) -> usize
    ensures { result ≡ label }
{
    label as usize
}

/// One array field that spans all the bytes: nothing before it, nothing behind it.
fn check_input(bytes: &[u8]) -> bool
    ensures { result ≡ input_ok bytes.now }
{
    match view::spanning(bytes) {
        Some(field) => check_array_field(bytes, field.tag, field.content, Limits::DEPTH),
        None => false,
    }
}

/// The public check of a lent array, on any bytes: over its limit first, then malformed, tree limits included.
pub fn check_array(bytes: &[u8]) -> Result<(), Fault>
    ensures { result ≡ check_of (read_array bytes.now) }
{
    if Limits::ARRAY < bytes.len() {
        return Err(Fault::Overlong);
    }
    if !check_input(bytes) {
        return Err(Fault::Malformed);
    }
    Ok(())
}
