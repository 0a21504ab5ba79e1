//! Building a tree by merging parts, each tested: what a project does with its items, a group with its pairs and a
//! lookup with its place. The tree so far stands below its part, which is written with room for one tree, and added.
ghost use Rattle.std.specs.Prelude.{true};
ghost use Rattle.build.specs.Build.{DepthSaid, Addable, Added};

use crate::behind::{append_part, goes_behind};
use areas::area::{TooLarge, move_down};
use areas::span::Span;
use format::depth::within_depth;
use format::limits::Limits;
use merge::merge::merge_tree;

/// Merges the part with the tree, above the part, where the merge may still be too large, and then moves it down to
/// where the tree begins.
fn merge_part(work: &mut [u8], built: Span, part: Span) -> Result<usize, TooLarge>
    requires { Addable work.old built part × DepthSaid work.old part true }
    ensures { Added work.old work.new built part result }
{
    let s = built.from;
    let d = part.to;
    let stop = d + Limits::TREE;
    let e = merge_tree(work, built, part, Span { from: d, to: stop })?;
    let merged = Span { from: d, to: e };
    if !within_depth(work, merged, Limits::DEPTH) {
        return Err(TooLarge);
    }
    move_down(work, merged, s);
    Ok(s + (e - d))
}

/// Adds the part to the tree, which stands below it, and answers where their merge ends.
pub fn add_part(work: &mut [u8], built: Span, part: Span) -> Result<usize, TooLarge>
    requires { Addable work.old built part }
    ensures { Added work.old work.new built part result }
{
    if !within_depth(work, part, Limits::DEPTH) {
        return Err(TooLarge);
    }
    if goes_behind(work, built, part) {
        return append_part(work, built, part);
    }
    merge_part(work, built, part)
}
