//! The position area at the end of a run: an entry beside each tree of the result, or the area is cleared.
ghost use Rattle.finish.specs.Lines.{LinesReady, Lines};

use positions::entries::{clear_entries, write_entries};
use spec_run::answer::Answer;

/// What a run whose stages came to this answer leaves in the position area. The positions of its result trees stand in
/// the work area; before the trees an array has a head of three bytes.
pub fn write_positions(work: &[u8], answer: Answer, positions: &mut [u16])
    requires { LinesReady work.now answer positions.old }
    ensures { Lines work.now answer positions.old positions.new }
{
    match answer {
        Ok(n) => write_entries(positions, work, n - 3),
        Err(_) => clear_entries(positions),
    }
}
