//! Runs the engine on each case of a stored corpus, which stands on standard input, and writes how many of them agree
//! with what the corpus expects, and the first that differs. The corpus was written by another program, from documents
//! 01 and 02 alone. A case is one record: the query and the two arrays, of a run the input and the joined array, each
//! with its length before it in two bytes, the high one first; the length of the work area in three bytes, and of the
//! result area in two; the count of entries of the position area in two; the number that is expected in one byte; the
//! result that is expected, with its length before it in two bytes; and its positions, two bytes each, likewise. The
//! first two bits of the work area's length are not counted: a regrouping has the first, and a run whose positions are
//! stated the second. Without it there is no count and there are no positions, and the area has as many entries as a run
//! needs. A tracer's message has both bits, and but for them the length is 0: it stands in the query's place, the two
//! arrays are empty, and there is no count and there are no positions.

#![tactic(auto)]

mod case;
mod count;
mod record;

use crate::count::count;
use std::io;

fn main(rt: HostRuntime) -> io::Result<()> {
    count(&mut rt.reader(), &mut io::writer(&rt))
}
