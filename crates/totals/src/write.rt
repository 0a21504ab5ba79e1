//! A total, written as what it places: an array of one bare tree with an integer root, or nothing.
ghost use Rattle.std.specs.Prelude.{◌≤◌, length};
ghost use Rattle.spec_trees.specs.Limits.{work_min};
ghost use Rattle.totals.specs.Exact.{Sound};
ghost use Rattle.totals.specs.Write.{WroteTotal};

use crate::exact::{Total, bits};
use areas::area::TooLarge;
use areas::span::Span;
use bare::integer::put_integer;

/// What the total, which fits, places.
pub fn write_total(work: &mut [u8], total: Total, room: Span) -> Result<Option<usize>, TooLarge>
    requires { Sound total × (room.from ≤ room.to) × (room.to ≤ length work.old) × (length work.old ≤ work_min) }
    ensures { WroteTotal work.old work.new room total result }
{
    if total.count == 0 {
        return Ok(None);
    }
    let end = put_integer(work, bits(total), room)?;
    Ok(Some(end))
}
