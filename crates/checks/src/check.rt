//! The tests of a call. Every call that takes a query makes them here, before anything is changed.
ghost use Rattle.std.specs.Prelude.{◌≡◌};
ghost use Rattle.trays.specs.TrayGroup.{QueryForm};
ghost use Rattle.checks.specs.Check.{decided, work_check, areas_check, query_check, arrays_check, call_check};
ghost use Rattle.checks.specs.RegroupCheck.{TraysCheck, RegroupChecked};

use format::check::{Fault, check_array};
use format::limits::Limits;
use queries::check::check_query;
use queries::stage::GroupAt;
use spec_run::answer::Refusal;
use trays::tray_group::tray_group;

/// The refusal of a lent piece: over its limit, or malformed.
fn decide(check: Result<(), Fault>, long: Refusal, malformed: Refusal) -> Result<(), Refusal>
    ensures { result ≡ decided check long malformed }
{
    check.map_err(|fault| match fault {
        Fault::Overlong => long,
        Fault::Malformed => malformed,
    })
}

/// Test 1, of every call that takes a query: the work area's length.
fn check_work(work: usize) -> Result<(), Refusal>
    ensures { result ≡ work_check work }
{
    if work < Limits::WORK {
        return Err(Refusal::WorkShort);
    }
    Ok(())
}

/// Tests 1 and 11, of a run: the lengths of the work area and of the position area.
fn check_areas(work: usize, entries: usize) -> Result<(), Refusal>
    ensures { result ≡ areas_check work entries }
{
    check_work(work)?;
    if entries < Limits::POSITIONS {
        return Err(Refusal::PositionsShort);
    }
    Ok(())
}

/// Tests 2 and 3, of every call that takes a query. They stand behind those of the areas' lengths.
fn check_prepared(query: &[u8]) -> Result<(), Refusal>
    ensures { result ≡ query_check query.now }
{
    decide(
        check_query(query),
        Refusal::QueryLong,
        Refusal::QueryMalformed,
    )
}

/// The tests of an input and of a second array, which has refusals of its own: the first before the second.
fn check_arrays(
    first: &[u8],
    second: &[u8],
    long: Refusal,
    malformed: Refusal,
) -> Result<(), Refusal>
    ensures { result ≡ arrays_check first.now second.now long malformed }
{
    decide(
        check_array(first),
        Refusal::InputLong,
        Refusal::InputMalformed,
    )?;
    decide(check_array(second), long, malformed)
}

/// The tests of a run in their order: the lengths of the work area and of the position area, the query, the input, the
/// joined array.
pub fn check_call(
    query: &[u8],
    input: &[u8],
    joined: &[u8],
    work: usize,
    entries: usize,
) -> Result<(), Refusal>
    ensures { result ≡ call_check query.now input.now joined.now work entries }
{
    check_areas(work, entries)?;
    check_prepared(query)?;
    check_arrays(input, joined, Refusal::JoinedLong, Refusal::JoinedMalformed)
}

/// The tests of the regrouping call behind that of its query: whether it is a tray group alone, whose pairs stand there,
/// and the two arrays.
fn check_trays(query: &[u8], first: &[u8], second: &[u8]) -> Result<GroupAt, Refusal>
    requires { QueryForm query.now }
    ensures { TraysCheck query.now first.now second.now result }
{
    let Some(group) = tray_group(query) else {
        return Err(Refusal::QueryMalformed);
    };
    check_arrays(first, second, Refusal::InputLong, Refusal::InputMalformed)?;
    Ok(group)
}

/// The tests of the regrouping call in their order: the work area's length, the query, the first array, the second. If it
/// passes them, the pairs of its group stand there.
pub fn check_regroup(
    query: &[u8],
    first: &[u8],
    second: &[u8],
    work: usize,
) -> Result<GroupAt, Refusal>
    ensures { RegroupChecked query.now first.now second.now work result }
{
    check_work(work)?;
    check_prepared(query)?;
    check_trays(query, first, second)
}
