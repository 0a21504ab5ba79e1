//! The words in which the test programs report.
use std::io;
use std::io::Write;

/// Writes the last line: how many cases there are, by the name that the program has for them, and how many agree.
pub fn say_total<W: Write>(out: &mut W, cases: u64, name: &[u8], agree: u64) -> io::Result<()> {
    write!(out, "{cases} ")?;
    out.write_all(name)?;
    writeln!(out, ", {agree} agree")
}
