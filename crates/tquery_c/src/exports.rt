//! The calls of `include/tquery.h`, under their names there: each is the library's.
ghost use Rattle.std.specs.Prelude.{◌≡◌, ◌*◌};
ghost use Rattle.spec_run.specs.Run.{call, checked_array, checked_query};
ghost use Rattle.spec_run.specs.Regroup.{regroup_call};
ghost use Rattle.spec_run.specs.Answer.{Answered, Regrouped, Traced};
ghost use Rattle.tquery.specs.Interface.{number_from, length_from};

use tquery::interface;

/// Runs the query: the number times 2 to the power 32, and the length. All six areas are the caller's. The first three
/// are only read; what the other three hold afterwards is the plain run's, as the number and the length are. The
/// position area's length is in entries.
#[unsafe(no_mangle)]
pub extern "C" fn tquery_run<'a>(
    query: &'a [u8],
    input: &'a [u8],
    joined: &'a [u8],
    work: &mut [u8],
    res: &mut [u8],
    positions: &mut [u16],
) -> u64
    ensures { Answered
        (call query.now input.now joined.now work.old res.old positions.old)
        (number_from result) (length_from result) res.new work.new positions.new }
{
    interface::tquery_run(query, input, joined, work, res, positions)
}

/// Groups two arrays, joined, again by a query that is one group alone, without totals, whose destinations are single,
/// distinct labels: the number times 2 to the power 32, and the length. The first three areas are only read; what the
/// other two hold afterwards is the plain regrouping's, as the number and the length are.
#[unsafe(no_mangle)]
pub extern "C" fn tquery_regroup<'a>(
    query: &'a [u8],
    first: &'a [u8],
    second: &'a [u8],
    work: &mut [u8],
    res: &mut [u8],
) -> u64
    ensures { Regrouped
        (regroup_call query.now first.now second.now work.old res.old)
        (number_from result) (length_from result) res.new work.new }
{
    interface::tquery_regroup(query, first, second, work, res)
}

/// Makes the array of one tree that a tracer's message becomes: the number times 2 to the power 32, and the length. The
/// message is only read; what the result area holds afterwards is the definitions', as the number and the length are.
#[unsafe(no_mangle)]
pub extern "C" fn tquery_tracer(message: &[u8], res: &mut [u8]) -> u64
    ensures { Traced message.now res.old (number_from result) (length_from result) res.new }
{
    interface::tquery_tracer(message, res)
}

/// Checks an array: the number, 0, 4 or 5, times 2 to the power 32.
#[unsafe(no_mangle)]
pub extern "C" fn tquery_check_array(bytes: &[u8]) -> u64
    ensures { result ≡ checked_array bytes.now * 4294967296 }
{
    interface::tquery_check_array(bytes)
}

/// Checks a query: the number, 0, 2 or 3, times 2 to the power 32.
#[unsafe(no_mangle)]
pub extern "C" fn tquery_check_query(bytes: &[u8]) -> u64
    ensures { result ≡ checked_query bytes.now * 4294967296 }
{
    interface::tquery_check_query(bytes)
}
