//! The run of a query over an input and a joined array, in areas that the caller lends. It needs nothing of them: any
//! bytes and any lengths are answered.
ghost use Rattle.std.specs.Prelude.{◌≡◌, ◌≤◌, length};
ghost use Rattle.spec_trees.specs.Limits.{work_min, positions_min};
ghost use Rattle.stretches.specs.Ended.{Forms};
ghost use Rattle.spec_run.specs.Run.{call};
ghost use Rattle.spec_run.specs.Answer.{numbered, lengthened, Answered};
ghost use Rattle.engine.specs.Perform.{Performs};

use areas::area::clear;
use checks::check::check_call;
use finish::finish::{finish, refuse};
use finish::lines::write_positions;
use format::limits::Limits;
use spec_run::answer::Answer;
use stretches::all::all;

/// The stages of a call that passed its tests, performed in 65,536 bytes of the work area, its result, and the positions
/// of the result trees.
fn perform<'a>(
    query: &'a [u8],
    input: &'a [u8],
    joined: &'a [u8],
    work: &mut [u8],
    res: &mut [u8],
    positions: &mut [u16],
) -> Answer
    requires { Forms query.now input.now joined.now × (length work.old ≡ work_min) × (positions_min ≤ length positions.old) }
    ensures { Performs query.now input.now joined.now res.old positions.old
        result res.new positions.new }
{
    let ended = all(query, input, joined, work);
    let answer = finish(work, ended, res);
    write_positions(work, answer, positions);
    answer
}

/// Runs the query. Its number, its length and the whole content of the result area, of the work area and of the position
/// area are the plain run's of this call. The areas that are read never change.
pub fn run<'a>(
    query: &'a [u8],
    input: &'a [u8],
    joined: &'a [u8],
    work: &mut [u8],
    res: &mut [u8],
    positions: &mut [u16],
) -> Answer
    ensures { Answered
        (call query.now input.now joined.now work.old res.old positions.old)
        (numbered result) (lengthened result) res.new work.new positions.new }
{
    if let Err(refusal) = check_call(query, input, joined, work.len(), positions.len()) {
        return refuse(refusal, work);
    }
    let answer = perform(
        query,
        input,
        joined,
        &mut work[..Limits::WORK],
        res,
        positions,
    );
    clear(work);
    answer
}
