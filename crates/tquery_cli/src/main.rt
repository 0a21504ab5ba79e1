//! The program: it reads a query, an input and a joined array from standard input, runs the query, and writes the
//! result in hexadecimal, or "refused " and the number of the refusal, to standard output.

#![tactic(auto)]

mod respond;
mod split;
mod text;

use crate::respond::{READ, respond};
use reading::full::read_full;
use std::io;
use std::io::Write;

fn main(rt: HostRuntime) -> io::Result<()> {
    let mut input = [0u8; READ];
    let n = read_full(&mut rt.reader(), &mut input)?;
    let mut text = [0u8; 32800];
    let end = respond(&input[..n], &mut text);
    io::writer(&rt).write_all(&text[..end])
}
