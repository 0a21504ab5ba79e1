//! The call of a case, and whether all that is seen of it is as expected. The work area is full of 170 before a call,
//! the result area full of 187 and the position area full of 43690, so that whatever changed is seen.
use crate::position_area::{FILLED, entries_are};
use crate::verdict::{Difference, Verdict};
use engine::answer::{check_number, length, number};
use engine::regroup::regroup;
use engine::run::run;
use format::check::check_array;
use format::limits::Limits;
use queries::check::check_query;
use spec_run::answer::{Answer, Refusal};
use tracer::trace::trace;

/// The longest areas that a case may ask for: more than the engine needs, and more than it can fill.
const WORK: usize = 70000;

const ROOM: usize = 20480;

const ENTRIES: usize = 20480;

/// The number and the result that are expected of a call, and how many bytes its result area has.
#[derive(Clone, Copy, Debug)]
pub struct Expected<'a> {
    pub number: u64,
    pub result: &'a [u8],
    pub room: usize,
}

/// A case of a call with a query and two arrays, of a run the input and the joined array.
#[derive(Clone, Copy, Debug)]
pub struct Case<'a> {
    pub query: &'a [u8],
    pub first: &'a [u8],
    pub second: &'a [u8],
    /// How many bytes the work area has.
    pub work: usize,
    pub expected: Expected<'a>,
}

/// What a run may state of its position area.
#[derive(Clone, Copy, Debug)]
pub struct Stated<'a> {
    /// How many entries it has.
    pub entries: usize,
    /// The positions that are expected, in two bytes each.
    pub positions: &'a [u8],
}

/// Whether a number clears the result and the position area.
fn clears(number: u64) -> bool {
    matches!(number, 8..=10 | 12)
}

/// The byte that fills the result area beyond the result, by the number.
fn rest_byte(number: u64) -> u8 {
    if clears(number) { 0 } else { 187 }
}

/// What fills the position area beyond the positions, by the number.
fn rest_entry(number: u64) -> u16 {
    if clears(number) { 0 } else { FILLED }
}

/// The byte that fills the work area after the call, by the number: refusals 1 and 11 leave the area as it was.
fn work_byte(number: u64) -> u8 {
    if matches!(number, 1 | 11) { 170 } else { 0 }
}

/// Whether each byte is `byte`: the first is, and each other one is as the one before it.
fn each_is(bytes: &[u8], byte: u8) -> bool {
    match bytes.split_first() {
        Some((first, rest)) => *first == byte && bytes.starts_with(rest),
        None => true,
    }
}

/// Compares the areas after a call whose number and length are as expected.
fn compare_areas(expected: Expected, work: &[u8], res: &[u8]) -> Verdict {
    let Some(rest) = res.strip_prefix(expected.result) else {
        return Err(Difference::Result);
    };
    if !each_is(rest, rest_byte(expected.number)) {
        return Err(Difference::Rest);
    }
    if !each_is(work, work_byte(expected.number)) {
        return Err(Difference::Work);
    }
    Ok(())
}

/// Calls the engine with a work area, which is full of 170, and a result area that has the length that is asked for,
/// and compares its answer and the areas.
fn compare_call<F: FnOnce(&mut [u8], &mut [u8]) -> Answer>(
    work: &mut [u8],
    expected: Expected,
    call: F,
) -> Verdict
    requires { F.IsAlwaysCallable call }
{
    let mut result_bytes = [187u8; ROOM];
    let res = result_bytes
        .get_mut(..expected.room)
        .ok_or(Difference::Malformed)?;
    let answer = call(work, res);
    if number(answer) != expected.number {
        return Err(Difference::Number);
    }
    if length(answer) != expected.result.len() {
        return Err(Difference::Length);
    }
    compare_areas(expected, work, res)
}

/// The same with a work area that has the length that is asked for. The call of a message has none, and fills none.
fn compare_with_work<F: FnOnce(&mut [u8], &mut [u8]) -> Answer>(
    work: usize,
    expected: Expected,
    call: F,
) -> Verdict
    requires { F.IsAlwaysCallable call }
{
    let mut work_bytes = [170u8; WORK];
    let work = work_bytes.get_mut(..work).ok_or(Difference::Malformed)?;
    compare_call(work, expected, call)
}

/// Compares the position area of a run, where all else is as expected. If no positions are stated, those of an accepted
/// run are not compared.
fn compare_positions(number: u64, stated: Option<Stated>, area: &[u16]) -> Verdict {
    let positions = match stated {
        Some(Stated { positions, .. }) => positions,
        None if number == 0 => return Ok(()),
        None => &[],
    };
    if !entries_are(area, positions, usize::from(rest_entry(number))) {
        return Err(Difference::Positions);
    }
    Ok(())
}

/// Runs a case, and compares it with what is expected. A case that states nothing of its position area has as many
/// entries as a run needs.
pub fn compare_run(case: Case, stated: Option<Stated>) -> Verdict {
    let mut area = [FILLED; ENTRIES];
    let entries = stated.map_or(Limits::POSITIONS, |s| s.entries);
    let area = area.get_mut(..entries).ok_or(Difference::Malformed)?;
    compare_with_work(case.work, case.expected, |work, res| {
        run(case.query, case.first, case.second, work, res, area)
    })?;
    compare_positions(case.expected.number, stated, area)
}

/// Regroups the arrays of a case, and compares it with what is expected.
pub fn compare_regroup(case: Case) -> Verdict {
    compare_with_work(case.work, case.expected, |work, res| {
        regroup(case.query, case.first, case.second, work, res)
    })
}

/// Traces a message, and compares it with what is expected. The call has no work area.
pub fn compare_trace(message: &[u8], expected: Expected) -> Verdict {
    compare_call(&mut [], expected, |_, res| trace(message, res))
}

/// Compares the number of a check with the one that is expected.
fn compare_number(found: u64, expected: u64) -> Verdict {
    if found != expected {
        return Err(Difference::Number);
    }
    Ok(())
}

/// Checks an array, and compares the number with the one that is expected.
pub fn compare_array_check(bytes: &[u8], expected: u64) -> Verdict {
    let check = check_array(bytes);
    let found = check_number(check, Refusal::InputLong, Refusal::InputMalformed);
    compare_number(found, expected)
}

/// Checks a query, and compares the number with the one that is expected.
pub fn compare_query_check(bytes: &[u8], expected: u64) -> Verdict {
    let check = check_query(bytes);
    let found = check_number(check, Refusal::QueryLong, Refusal::QueryMalformed);
    compare_number(found, expected)
}
