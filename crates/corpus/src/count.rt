//! The count of the cases that agree.
use crate::case::next_verdict;
use crate::record::RecordError;
use cases::report::say_total;
use std::io;
use std::io::{Read, Write};

/// Runs every case and reports the first that differs. A proved loop has to end, and nothing says that the input
/// does, so the loop ends after a number of cases that no run reaches.
pub fn count<R: Read, W: Write>(input: &mut R, out: &mut W) -> io::Result<()> {
    let mut agree = 0u64;
    for before in 0..u64::MAX {
        let case = before + 1;
        match next_verdict(input) {
            Ok(Some(Ok(()))) => agree += 1,
            Ok(Some(Err(difference))) if agree == before => writeln!(out, "{case}: {difference}")?,
            Ok(Some(Err(_))) => {}
            Ok(None) => return say_total(out, before, b"cases", agree),
            Err(RecordError::Malformed) => {
                writeln!(out, "malformed record {case}")?;
                return say_total(out, before, b"cases", agree);
            }
            Err(RecordError::Io(error)) => return Err(error),
        }
    }
    say_total(out, u64::MAX, b"cases", agree)
}
