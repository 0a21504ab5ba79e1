//! The calls of `include/tquery.h`.
ghost use Rattle.std.specs.Prelude.{◌≡◌, ◌+◌, ◌*◌, ◌≤◌};
ghost use Rattle.spec_trees.specs.Limits.{array_max};
ghost use Rattle.spec_run.specs.Run.{call, checked_array, checked_query};
ghost use Rattle.spec_run.specs.Regroup.{regroup_call};
ghost use Rattle.spec_run.specs.Answer.{numbered, lengthened, Answered, Regrouped, Traced};
ghost use Rattle.tquery.specs.Interface.{number_from, length_from};

use engine::answer::{check_number, length, number};
use engine::regroup::regroup;
use engine::run::run;
use format::check::check_array;
use queries::check::check_query;
use spec_run::answer::{Answer, Refusal};
use tracer::trace::trace;

/// An answer as one number: its number times 2 to the power 32, and its length.
fn packed(answer: Answer) -> u64
    requires { lengthened answer ≤ array_max }
    ensures { result ≡ numbered answer * 4294967296 + lengthened answer }
{
    number(answer) * 4294967296 + length(answer) as u64
}

/// Runs the query: the number times 2 to the power 32, and the length. All six areas are the caller's. The first three
/// are only read; what the other three hold afterwards is the plain run's, as the number and the length are. The
/// position area's length is in entries.
pub fn tquery_run<'a>(
    query: &'a [u8],
    input: &'a [u8],
    joined: &'a [u8],
    work: &mut [u8],
    res: &mut [u8],
    positions: &mut [u16],
) -> u64
    ensures { Answered
        (call query.now input.now joined.now work.old res.old positions.old)
        (number_from result) (length_from result) res.new work.new positions.new }
{
    packed(run(query, input, joined, work, res, positions))
}

/// Groups two arrays, joined, again by a query that is one group alone, without totals, whose destinations are single,
/// distinct labels: the number times 2 to the power 32, and the length. The first three areas are only read; what the
/// other two hold afterwards is the plain regrouping's, as the number and the length are.
pub fn tquery_regroup<'a>(
    query: &'a [u8],
    first: &'a [u8],
    second: &'a [u8],
    work: &mut [u8],
    res: &mut [u8],
) -> u64
    ensures { Regrouped
        (regroup_call query.now first.now second.now work.old res.old)
        (number_from result) (length_from result) res.new work.new }
{
    packed(regroup(query, first, second, work, res))
}

/// Makes the array of one tree that a tracer's message becomes: the number times 2 to the power 32, and the length. The
/// message is only read; what the result area holds afterwards is the definitions', as the number and the length are.
pub fn tquery_tracer(message: &[u8], res: &mut [u8]) -> u64
    ensures { Traced message.now res.old (number_from result) (length_from result) res.new }
{
    packed(trace(message, res))
}

/// Checks an array: the number, 0, 4 or 5, times 2 to the power 32.
pub fn tquery_check_array(bytes: &[u8]) -> u64
    ensures { result ≡ checked_array bytes.now * 4294967296 }
{
    let c = check_array(bytes);
    check_number(c, Refusal::InputLong, Refusal::InputMalformed) * 4294967296
}

/// Checks a query: the number, 0, 2 or 3, times 2 to the power 32.
pub fn tquery_check_query(bytes: &[u8]) -> u64
    ensures { result ≡ checked_query bytes.now * 4294967296 }
{
    let c = check_query(bytes);
    check_number(c, Refusal::QueryLong, Refusal::QueryMalformed) * 4294967296
}
