//! The array that enters a group is copied to the front class by class: subset by subset of the grouping pairs, in the
//! order of the classes' first trees, each class in one piece. Behind the arranged trees stands a number for each: that
//! of a tree that begins a class is the position that it bears, and the others have 0.
ghost use Rattle.std.specs.Prelude.{◌+◌, ◌-◌, ◌≤◌, ◌<◌, length};
ghost use Rattle.spec_trees.specs.Limits.{work_min};
ghost use Rattle.spec_trees.specs.Bytes.{tree_bytes};
ghost use Rattle.queries.specs.Places.{HoldsAt};
ghost use Rattle.key_index.specs.Index.{base, Collected};
ghost use Rattle.arrange.specs.Arrange.{Room, Placed, Following, Follows, Subset, SubsetArranged, Arranges};

use areas::area::{copy_down, field_end};
use areas::number::{put_two, two_at};
use areas::span::Span;
use key_index::enter::enter_all;
use key_index::front::Reached;
use key_index::index::Index;
use keys::key::subsets;
use positions::bear::position_at;

/// Puts the tree behind those at the front, with its number.
fn place(work: &mut [u8], tree: Span, number: usize, filled: Reached) -> Reached
    requires { Room work.old filled (tree.to - tree.from) × HoldsAt tree_bytes work.old tree × (base ≤ tree.from) × (number < work_min) }
    ensures { Placed work.old work.new tree number filled result }
{
    copy_down(work, tree, filled.to);
    put_two(work, Index::NUMBERS + 2 * filled.count, number);
    Reached {
        to: filled.to + (tree.to - tree.from),
        count: filled.count + 1,
    }
}

/// Puts the class of the tree at `first` there: that tree, with the position that it bears, and those behind it with
/// its key.
fn arrange_class(work: &mut [u8], first: usize, filled: Reached) -> Reached
    requires { Following work.old first filled }
    ensures { Follows work.old work.new first filled result }
{
    let mut so_far = filled;
    let mut number = position_at(work, first - Index::TREES);
    let mut at = first;
    while at != 0 {
        let m = field_end(work, at);
        so_far = place(work, Span { from: at, to: m }, number, so_far);
        number = 0;
        at = two_at(work, at - Index::NEXT);
    }
    so_far
}

/// Puts the classes of the subset there, of the collected trees, which take `len` bytes. How many there are is known,
/// so that no tree behind the last first one is looked at, and none at all for a subset that no tree has.
fn arrange_subset(work: &mut [u8], len: usize, subset: usize, filled: Reached) -> Reached
    requires { Subset work.old len subset filled }
    ensures { SubsetArranged work.old work.new len subset filled result }
{
    let mut so_far = filled;
    let mut left = two_at(work, Index::COUNTS + 2 * subset);
    let mut at = Index::TREES;
    while left != 0 {
        let m = field_end(work, at);
        if two_at(work, at - Index::MARK) == subset {
            so_far = arrange_class(work, at, so_far);
            left -= 1;
        }
        at = m;
    }
    so_far
}

/// Arranges the collected trees, which take `len` bytes, at the front.
pub fn arrange(work: &mut [u8], query: &[u8], keys: Span, len: usize)
    requires { Collected work.old query.now keys len }
    ensures { Arranges work.old work.new query.now keys len }
{
    enter_all(work, query, keys, len);
    let total = subsets(query, keys);
    let mut filled = Reached { to: 0, count: 0 };
    for k in 0..total {
        filled = arrange_subset(work, len, k, filled);
    }
}
