//! A case: its record is read, and it is run and compared.
use crate::record::{
    RecordError, read_bytes, read_one, read_part, read_three, read_two, read_two_if_any,
};
use cases::trial::{Case, Expected, Stated, compare_regroup, compare_run, compare_trace};
use cases::verdict::Verdict;
use std::io::Read;

/// The room for the parts of a record.
const PARTS: usize = 65536;

/// What a regrouping adds to the length of its work area: the first bit of three bytes.
const REGROUPS: usize = 8388608;

/// What a run adds whose positions are stated: the second bit.
const STATED: usize = 4194304;

/// What a message has instead of the length of a work area: both bits.
const MESSAGE: usize = 12582912;

/// Reads what is expected of a call, and what it states of its position area if it does so.
fn read_expected<'b, R: Read>(
    input: &mut R,
    is_stated: bool,
    bytes: &'b mut [u8],
) -> Result<(Expected<'b>, Option<Stated<'b>>), RecordError> {
    let room = read_two(input)?;
    let entries = if is_stated {
        Some(read_two(input)?)
    } else {
        None
    };
    let number = read_one(input)?;
    let (result, free) = read_part(input, bytes)?;
    let expected = Expected {
        number,
        result,
        room,
    };
    let Some(entries) = entries else {
        return Ok((expected, None));
    };
    let (positions, _) = read_part(input, free)?;
    Ok((expected, Some(Stated { entries, positions })))
}

/// Reads the record whose query has so many bytes, runs its case and compares it. The two arrays of a message are
/// empty, and it has no work area.
fn compare_record<R: Read>(
    input: &mut R,
    query_length: usize,
    bytes: &mut [u8],
) -> Result<Verdict, RecordError> {
    let (query, free) = read_bytes(input, query_length, bytes)?;
    let (first, free) = read_part(input, free)?;
    let (second, free) = read_part(input, free)?;
    let marked = read_three(input)?;
    if marked == MESSAGE && first.is_empty() && second.is_empty() {
        let (expected, _) = read_expected(input, false, free)?;
        return Ok(compare_trace(query, expected));
    }
    if MESSAGE <= marked {
        return Err(RecordError::Malformed);
    }
    let (expected, stated) = read_expected(input, STATED <= marked % REGROUPS, free)?;
    let case = Case {
        query,
        first,
        second,
        work: marked % STATED,
        expected,
    };
    Ok(if marked < REGROUPS {
        compare_run(case, stated)
    } else {
        compare_regroup(case)
    })
}

/// The verdict on the case of the next record; none where there is no record more.
pub fn next_verdict<R: Read>(input: &mut R) -> Result<Option<Verdict>, RecordError> {
    let mut bytes = [0u8; PARTS];
    let Some(query_length) = read_two_if_any(input)? else {
        return Ok(None);
    };
    let verdict = compare_record(input, query_length, &mut bytes)?;
    Ok(Some(verdict))
}
