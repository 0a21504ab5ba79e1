//! The position area that a caller lends: an entry of 16 bits for each result tree.
ghost use Rattle.std.specs.Prelude.{◌≡◌, ◌≤◌, length, replicate};
ghost use Rattle.spec_trees.specs.Limits.{positions_min};
ghost use Rattle.positions.specs.Bearing.{Standing};
ghost use Rattle.positions.specs.Entries.{Enters};

use crate::bear::position_at;
use areas::area::field_end;
use map::map::Map;

/// Sets every entry to zero.
pub fn clear_entries(entries: &mut [u16])
    ensures { entries.new ≡ replicate (length entries.old) 0 }
{
    entries.fill(0);
}

/// The positions that the collected trees bear, which take `len` bytes: an entry for each. Later entries keep their
/// value.
pub fn write_entries(entries: &mut [u16], work: &[u8], len: usize)
    requires { Standing work.now 0 len × (positions_min ≤ length entries.old) }
    ensures { Enters work.now len entries.old entries.new }
{
    let mut i = 0;
    let mut at = 0;
    while at != len {
        let m = field_end(work, Map::COLLECTED + at) - Map::COLLECTED;
        entries[i] = position_at(work, at) as u16;
        i += 1;
        at = m;
    }
}
