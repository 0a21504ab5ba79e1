//! All stretches of a run.
ghost use Rattle.std.specs.Prelude.{◌≡◌, length};
ghost use Rattle.spec_trees.specs.Limits.{work_min};
ghost use Rattle.stretches.specs.Ended.{Forms, Runs};

use crate::ended::Failure;
use crate::later::later;
use first_stretch::first::first;
use queries::stage::stages_of;

/// All stretches of an admitted call, in a work area of 65,536 bytes. The result area is not touched.
pub fn all<'a>(
    query: &'a [u8],
    input: &'a [u8],
    joined: &'a [u8],
    work: &mut [u8],
) -> Result<usize, Failure>
    requires { Forms query.now input.now joined.now × (length work.old ≡ work_min) }
    ensures { Runs query.now input.now joined.now work.new result }
{
    let stages = stages_of(query);
    let held = first(input, work, query, stages, joined);
    later(work, query, stages, joined, held)
}
