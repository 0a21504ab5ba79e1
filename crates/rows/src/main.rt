//! Runs the engine on each row of a text, which stands on standard input, and writes its name with the verdict, and
//! at the end how many rows agree. The head of the text says how a row is written.

#![tactic(auto)]

mod count;
mod row;

use crate::count::count;
use reading::full::read_full;
use std::io;
use std::io::Write;

/// How long the text may be.
const ROOM: usize = 229376;

/// Reports a text that may go on behind what was read of it.
fn warn<W: Write>(out: &mut W, length: usize) -> io::Result<()> {
    if length == ROOM {
        return writeln!(out, "the text is too long");
    }
    Ok(())
}

fn main(rt: HostRuntime) -> io::Result<()> {
    let mut text = [0u8; ROOM];
    let n = read_full(&mut rt.reader(), &mut text)?;
    let mut out = io::writer(&rt);
    warn(&mut out, n)?;
    count(&mut out, &text[..n])
}
