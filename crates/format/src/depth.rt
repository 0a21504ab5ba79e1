//! How deep trees are, measured where they stand: a tree alone has depth 1, and those under a label are one deeper.
//! Every level takes bytes, so that few bytes need no walk.
ghost use Rattle.std.specs.Prelude.{leb};
ghost use Rattle.spec_trees.specs.Size.{depth_a, depth_l};
ghost use Rattle.format.specs.Stand.{trees_bytes, labels_bytes, Holds, Says};

use crate::labels::{TAG, trees_at};
use areas::area::field_end;
use areas::span::Span;

/// The least bytes of a label: its heads and itself.
const LABEL: usize = TAG as usize;

/// The least bytes of a level: the heads of a tree and of its root, and a label. The last level has no label.
const LEVEL: usize = 6 + LABEL;

/// Whether the trees that stand at a place take at most `left` levels. Most have too few bytes for more.
pub fn within_depth(area: &[u8], trees: Span, left: usize) -> bool
    requires { Holds trees_bytes area.now trees.from trees.to }
    ensures { Says trees_bytes (λ ts. leb (depth_a ts) left) area.now trees.from trees.to result }
{
    if (trees.to - trees.from + LABEL) / LEVEL <= left {
        return true;
    }
    trees_within(area, trees, left)
}

/// The same by a walk, where they have bytes enough for more.
#[cycle(nesting)]
fn trees_within(area: &[u8], trees: Span, left: usize) -> bool
    requires { Holds trees_bytes area.now trees.from trees.to }
    ensures { Says trees_bytes (λ ts. leb (depth_a ts) left) area.now trees.from trees.to result }
{
    let end = trees.to;
    let mut at = trees.from;
    if left == 0 {
        return at == end;
    }
    if (end - at + LABEL) / LEVEL <= left {
        return true;
    }
    while at != end {
        let m = field_end(area, at);
        let l = field_end(area, at + 3);
        if !labels_within(area, Span { from: l, to: m }, left - 1) {
            return false;
        }
        at = m;
    }
    true
}

/// Whether the trees under the labels that stand at a place take at most `left` levels.
#[cycle(nesting)]
fn labels_within(area: &[u8], labels: Span, left: usize) -> bool
    requires { Holds labels_bytes area.now labels.from labels.to }
    ensures { Says labels_bytes (λ ls. leb (depth_l ls) left) area.now labels.from labels.to result }
{
    let end = labels.to;
    let mut at = labels.from;
    while at != end {
        let m = field_end(area, at);
        let trees = Span {
            from: trees_at(area, at),
            to: m,
        };
        if !trees_within(area, trees, left) {
            return false;
        }
        at = m;
    }
    true
}
