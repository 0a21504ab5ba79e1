//! The join of two arrays.
ghost use Rattle.std.specs.Prelude.{◌++◌, ◌+◌, ◌≤◌, length, drop};
ghost use Rattle.spec_trees.specs.Limits.{work_min};
ghost use Rattle.map.specs.Map.{trees_max};
ghost use Rattle.areas.specs.Area.{Wrote};

use areas::area::{TooLarge, copy_in};
use areas::span::Span;
use map::map::Map;

/// The trees of the first array, and behind them those of the second, in the work area from `from` on; or they are more
/// than an array may have.
pub fn join(work: &mut [u8], from: usize, first: &[u8], second: &[u8]) -> Result<usize, TooLarge>
    requires { (3 ≤ length first.now) × (3 ≤ length second.now) × (from + trees_max ≤ length work.old) × (length work.old ≤ work_min) }
    ensures { Wrote work.old work.new from (from + trees_max) (drop 3 first.now ++ drop 3 second.now) result }
{
    let stop = from + Map::TREES;
    let front = Span { from, to: stop };
    let m = copy_in(work, &first[3..], front)?;
    let behind = Span { from: m, to: stop };
    copy_in(work, &second[3..], behind)
}
