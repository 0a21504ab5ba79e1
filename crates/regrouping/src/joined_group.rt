//! The group of a regrouping, over the join of two arrays.
ghost use Rattle.regrouping.specs.JoinedGroup.{RegroupReady, Regroups};

use crate::join::join;
use areas::span::Span;
use map::map::Map;
use positions::bear::number;
use queries::stage::GroupAt;
use stretch::next::StretchAt;
use stretches::ended::Failure;
use stretches::later::{last, next_stretch};
use trays::again::write_again;

/// The regrouping of a tray group over the join of two arrays, in a work area of 65,536 bytes: they are joined where a
/// collected array stands, and bear positions as an input does, by which the classes are told apart. Its pairs take at
/// most 16 bytes each, and are 12 at most; no stage stands behind them, and no joined array is asked.
pub fn joined_group<'a>(
    query: &'a [u8],
    group: GroupAt,
    first: &'a [u8],
    second: &'a [u8],
    work: &mut [u8],
) -> Result<usize, Failure>
    requires { RegroupReady query.now group first.now second.now work.old }
    ensures { Regroups query.now group first.now second.now work.new result }
{
    let Ok(to) = join(work, Map::COLLECTED, first, second) else {
        return Err(Failure::Long);
    };
    let len = to - Map::COLLECTED;
    number(work, len);
    let mut pairs = [0u8; 192];
    let again = write_again(&mut pairs, query, group);
    let end = again.keys.to;
    let at = StretchAt {
        group: again,
        next: Span { from: end, to: end },
    };
    let left = next_stretch(work, len, &pairs, at, b"\x01\x00\x00")?;
    last(left)
}
