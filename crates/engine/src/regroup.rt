//! The regrouping of two tray results, in areas that the caller lends. It needs nothing of them: any bytes and any lengths
//! are answered.
ghost use Rattle.spec_run.specs.Regroup.{regroup_call};
ghost use Rattle.spec_run.specs.Answer.{numbered, lengthened, Regrouped};
ghost use Rattle.regrouping.specs.JoinedGroup.{RegroupReady};
ghost use Rattle.engine.specs.Perform.{PerformsAgain};

use areas::area::clear;
use checks::check::check_regroup;
use finish::finish::{finish, refuse};
use format::limits::Limits;
use queries::stage::GroupAt;
use regrouping::joined_group::joined_group;
use spec_run::answer::Answer;

/// The regrouping of a call that passed its tests, performed in 65,536 bytes of the work area, and its result.
fn perform_again<'a>(
    query: &'a [u8],
    group: GroupAt,
    first: &'a [u8],
    second: &'a [u8],
    work: &mut [u8],
    res: &mut [u8],
) -> Answer
    requires { RegroupReady query.now group first.now second.now work.old }
    ensures { PerformsAgain query.now group first.now second.now res.old res.new result }
{
    let ended = joined_group(query, group, first, second, work);
    finish(work, ended, res)
}

/// Groups two arrays, joined, again by a query that is one group alone, without totals, whose destinations are single,
/// distinct labels: each destination is now also the source. Its number, its length and the whole content of the result
/// area and of the work area are the plain regrouping's of this call. The areas that are read never change.
pub fn regroup<'a>(
    query: &'a [u8],
    first: &'a [u8],
    second: &'a [u8],
    work: &mut [u8],
    res: &mut [u8],
) -> Answer
    ensures { Regrouped
        (regroup_call query.now first.now second.now work.old res.old)
        (numbered result) (lengthened result) res.new work.new }
{
    match check_regroup(query, first, second, work.len()) {
        Ok(group) => {
            let answer = perform_again(query, group, first, second, &mut work[..Limits::WORK], res);
            clear(work);
            answer
        }
        Err(refusal) => refuse(refusal, work),
    }
}
