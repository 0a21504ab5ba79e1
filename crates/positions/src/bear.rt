//! Positions of the collected trees, in the part of the work area that is not lent to the stages: a number of two bytes
//! for each. Every tree has six bytes or more, so the trees at `x` and `y` of the array have different `x / 6` and
//! `y / 6`: the number of the tree at `x` has its place by that, and no count of trees is held anywhere.
ghost use Rattle.std.specs.Prelude.{◌≡◌, ◌+◌, ◌≤◌, ◌<◌, length};
ghost use Rattle.spec_trees.specs.Limits.{positions_min, work_min};
ghost use Rattle.spec_trees.specs.Bytes.{two_limit};
ghost use Rattle.areas.specs.Number.{two_at};
ghost use Rattle.map.specs.Map.{trees_max, position_at};
ghost use Rattle.positions.specs.Bearing.{Standing, Bearing, Marks, Numbers};

use areas::area::field_end;
use areas::number::{put_two, two_at};
use map::map::Map;

/// Where the position of the collected tree at `at` stands, which is counted from the array's beginning.
fn place(at: usize) -> usize
    requires { at < trees_max }
    ensures { result ≡ position_at at }
{
    Map::LENT + 2 * (at / 6)
}

/// The position that the collected tree at `at` bears.
pub fn position_at(work: &[u8], at: usize) -> usize
    requires { (length work.now ≡ work_min) × (at + 6 ≤ trees_max) }
    ensures { (result ≡ two_at work.now (position_at at)) × (result < two_limit) }
{
    two_at(work, place(at))
}

/// The collected trees from `from` to `to` bear these positions: `first`, and each `step` more than the one before it.
fn bear(work: &mut [u8], from: usize, to: usize, first: usize, step: usize)
    requires { Standing work.old from to × (first ≤ positions_min) × (step ≤ 1) }
    ensures { Bearing work.old work.new from to first step }
{
    let mut position = first;
    let mut at = from;
    while at != to {
        let m = field_end(work, Map::COLLECTED + at) - Map::COLLECTED;
        put_two(work, place(at), position);
        position += step;
        at = m;
    }
}

/// The collected trees from `from` to `to` all stem from the input tree at this position.
pub fn mark(work: &mut [u8], from: usize, to: usize, position: usize)
    requires { Standing work.old from to × (position ≤ positions_min) }
    ensures { Marks work.old work.new from to position }
{
    bear(work, from, to, position, 0);
}

/// The collected trees, which take `len` bytes, are the trees of an input: they bear 1, 2 and so on.
pub fn number(work: &mut [u8], len: usize)
    requires { Standing work.old 0 len }
    ensures { Numbers work.old work.new len }
{
    bear(work, 0, len, 1, 1);
}
