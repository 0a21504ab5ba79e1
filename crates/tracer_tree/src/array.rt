//! The array of one tree that a message becomes.
ghost use Rattle.tracer_tree.specs.Array.{ArrayReady, WroteArray};

use crate::labels::write_labels;
use areas::area::{TooLarge, finish, put_head};
use areas::span::Span;
use tracer_lines::places::Places;

/// The bytes before the labels: the heads of the array, of the tree and of its void root.
const HEADS: usize = 9;

/// Writes the array at the start of `out`, if that has room for it.
pub fn write_array(out: &mut [u8], message: &[u8], places: &Places) -> Result<usize, TooLarge>
    requires { ArrayReady message.now places.now out.old }
    ensures { WroteArray message.now places.now out.old out.new result }
{
    let to = out.len();
    if to < HEADS {
        return Err(TooLarge);
    }
    put_head(out, 6, 3, HEADS);
    let written = write_labels(out, message, places, Span { from: HEADS, to });
    let tree = finish(out, 3, 2, written);
    finish(out, 0, 1, tree)
}
