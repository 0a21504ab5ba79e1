//! The arranged array, read class by class. It stands at the front of the work area, its trees in the first `len` bytes,
//! and behind them a number for each: the position of the tree that begins a class, and 0 for the others.
ghost use Rattle.classes.specs.Read.{EndReady, EndIs};

use areas::area::field_end;
use areas::number::two_at;
use key_index::front::Reached;
use key_index::index::Index;

/// Where the class ends whose first tree is the last that was read: where the next one begins, or at `len`.
pub fn class_end(work: &[u8], read: Reached, len: usize) -> Reached
    requires { EndReady work.now read len }
    ensures { EndIs work.now read len result }
{
    let mut to = read.to;
    let mut count = read.count;
    while to != len {
        if two_at(work, Index::NUMBERS + 2 * count) != 0 {
            return Reached { to, count };
        }
        to = field_end(work, to);
        count += 1;
    }
    Reached { to, count }
}
