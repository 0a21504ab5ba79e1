//! The rows of the text, one after the other.
use crate::row::{row_name, row_verdict};
use cases::report::say_total;
use cases::verdict::{Difference, Verdict};
use row_text::lines::{from_line, is_telling, split_before};
use std::io;
use std::io::Write;

/// The line of a row.
fn say_row<W: Write>(out: &mut W, row: &[u8], number: u64, verdict: Verdict) -> io::Result<()> {
    out.write_all(row_name(row))?;
    match verdict {
        Ok(()) => writeln!(out, ": agrees"),
        Err(difference @ Difference::Malformed) => writeln!(out, ": {difference} row {number}"),
        Err(difference) => writeln!(out, ": {difference}"),
    }
}

/// Runs every row and reports. The first line that says something begins the first row, whatever it says, and a row
/// goes up to the line that begins the next: so every line belongs to a row, and every row counts.
pub fn count<W: Write>(out: &mut W, text: &[u8]) -> io::Result<()> {
    let mut rows = 0u64;
    let mut agree = 0u64;
    let mut rest = from_line(text, is_telling);
    while !rest.is_empty() {
        let (row, behind) = split_before(rest, |line| line.starts_with(b"row "));
        let verdict = row_verdict(row);
        rows += 1;
        agree += u64::from(verdict.is_ok());
        say_row(out, row, rows, verdict)?;
        rest = behind;
    }
    say_total(out, rows, b"rows", agree)
}
