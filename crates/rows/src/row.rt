//! A row: its name, its call with the arguments, and what is expected.
use cases::comparing::compare_copy;
use cases::trial::{
    Case, Expected, Stated, compare_array_check, compare_query_check, compare_regroup, compare_run,
    compare_trace,
};
use cases::verdict::{Difference, Verdict};
use row_text::lines::split_line;
use row_text::row::Row;

/// Room for the bytes of a row: those of the longest, with as many trees in the input and the result as an array holds
/// and a position for each, are 38,232.
const BYTES: usize = 40960;

/// The name of a row: the rest of its first line, or all of it where it is no row.
pub fn row_name(row: &[u8]) -> &[u8] {
    let (line, _) = split_line(row);
    line.strip_prefix(b"row ").unwrap_or(line)
}

/// The number that is expected.
fn expected_number(row: &mut Row) -> Option<u64> {
    row.word(b"number")?;
    let number = row.number()?;
    row.line_feed()?;
    Some(number as u64)
}

/// An argument that a row has only if the number that is expected is 0: else it is no bytes.
fn argument_if_accepted<'b>(
    row: &mut Row,
    number: u64,
    wanted: &[u8],
    bytes: &'b mut [u8],
) -> Option<(&'b [u8], &'b mut [u8])> {
    if number == 0 {
        row.argument(wanted, bytes)
    } else {
        Some((&[], bytes))
    }
}

/// What is expected of a call whose result area has `room` bytes, with what is left of the buffer.
fn read_expected<'b>(
    row: &mut Row,
    room: usize,
    bytes: &'b mut [u8],
) -> Option<(Expected<'b>, &'b mut [u8])> {
    let number = expected_number(row)?;
    let (result, free) = argument_if_accepted(row, number, b"result ", bytes)?;
    let expected = Expected {
        number,
        result,
        room,
    };
    Some((expected, free))
}

/// The verdict of a row whose call only checks.
fn check_row<F: FnOnce(&[u8], u64) -> Verdict>(mut row: Row, compare: F) -> Option<Verdict>
    requires { F.IsAlwaysCallable compare }
{
    let mut bytes = [0u8; BYTES];
    row.line_feed()?;
    let (checked, _) = row.argument(b"bytes ", &mut bytes)?;
    let number = expected_number(&mut row)?;
    row.end()?;
    Some(compare(checked, number))
}

/// The verdict of a row that compares bytes with their copy.
fn compare_row(mut row: Row) -> Option<Verdict> {
    let mut bytes = [0u8; BYTES];
    let mut copy = [0u8; BYTES];
    row.line_feed()?;
    let (stretch, _) = row.argument(b"bytes ", &mut bytes)?;
    row.word(b"steps")?;
    let steps = row.number()?;
    row.line_feed()?;
    row.end()?;
    copy.get_mut(..stretch.len())?.copy_from_slice(stretch);
    Some(compare_copy(stretch, &mut copy, steps))
}

/// The verdict of a row whose call traces a message.
fn tracer_row(mut row: Row) -> Option<Verdict> {
    let mut bytes = [0u8; BYTES];
    let room = row.number()?;
    row.line_feed()?;
    let (message, free) = row.argument(b"message ", &mut bytes)?;
    let (expected, _) = read_expected(&mut row, room, free)?;
    row.end()?;
    Some(compare_trace(message, expected))
}

/// The query of a call, its two arrays, each behind its name, and what is expected; with what is left of the buffer.
fn read_case<'b>(
    row: &mut Row,
    work: usize,
    room: usize,
    names: (&[u8], &[u8]),
    bytes: &'b mut [u8],
) -> Option<(Case<'b>, &'b mut [u8])> {
    row.line_feed()?;
    let (query, free) = row.argument(b"query ", bytes)?;
    let (first, free) = row.argument(names.0, free)?;
    let (second, free) = row.argument(names.1, free)?;
    let (expected, free) = read_expected(row, room, free)?;
    let case = Case {
        query,
        first,
        second,
        work,
        expected,
    };
    Some((case, free))
}

/// The verdict of a row whose call regroups.
fn regroup_row(mut row: Row) -> Option<Verdict> {
    let mut bytes = [0u8; BYTES];
    let work = row.number()?;
    let room = row.number()?;
    let (case, _) = read_case(&mut row, work, room, (b"first ", b"second "), &mut bytes)?;
    row.end()?;
    Some(compare_regroup(case))
}

/// The verdict of a row whose call runs a query. It states the positions that are expected if it states how many
/// entries the position area has.
fn run_row(mut row: Row) -> Option<Verdict> {
    let mut bytes = [0u8; BYTES];
    let work = row.number()?;
    let room = row.number()?;
    let entries = row.number();
    let (case, free) = read_case(&mut row, work, room, (b"input ", b"joined "), &mut bytes)?;
    let number = case.expected.number;
    let stated = match entries {
        Some(entries) => {
            let (positions, _) = argument_if_accepted(&mut row, number, b"positions ", free)?;
            Some(Stated { entries, positions })
        }
        None => None,
    };
    row.end()?;
    Some(compare_run(case, stated))
}

/// The verdict of a row that can be read.
fn read_verdict(text: &[u8]) -> Option<Verdict> {
    let mut row = Row::new(text)?;
    if row.word(b"check-array").is_some() {
        return check_row(row, compare_array_check);
    }
    if row.word(b"check-query").is_some() {
        return check_row(row, compare_query_check);
    }
    if row.word(b"compare").is_some() {
        return compare_row(row);
    }
    if row.word(b"tracer").is_some() {
        return tracer_row(row);
    }
    if row.word(b"regroup").is_some() {
        return regroup_row(row);
    }
    row.word(b"run")?;
    run_row(row)
}

/// The verdict of a row.
pub fn row_verdict(text: &[u8]) -> Verdict {
    read_verdict(text).unwrap_or(Err(Difference::Malformed))
}
