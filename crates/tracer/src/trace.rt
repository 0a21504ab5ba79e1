//! A tracer's message as an array of one tree, in areas that the caller lends. It needs nothing of them: any bytes and
//! any lengths are answered.
ghost use Rattle.spec_run.specs.Answer.{numbered, lengthened, Traced};
ghost use Rattle.tracer.specs.Trace.{EndsAs};

use areas::area::{TooLarge, clear};
use format::limits::Limits;
use spec_run::answer::{Answer, Refusal};
use tracer_lines::limits::MessageLimits;
use tracer_lines::places::read_lines;
use tracer_tree::array::write_array;

/// The end of a call whose message is in form: its array was written, or it has no room in the area, which is cleared.
fn end_trace(res: &mut [u8], written: Result<usize, TooLarge>) -> Answer
    ensures { EndsAs written res.old res.new result }
{
    let Ok(end) = written else {
        clear(res);
        return Err(Refusal::ResultLong);
    };
    Ok(end)
}

/// Traces a message. Its number, its length and the whole content of the result area are the plain answer to this
/// message and this area. No byte is written before all lines are checked. The array of a message is shorter than
/// `Limits::TREE`, so that as much of the area, if it has as much, is room enough. The message never changes.
pub fn trace(message: &[u8], res: &mut [u8]) -> Answer
    ensures { Traced message.now res.old (numbered result) (lengthened result) res.new }
{
    if MessageLimits::MESSAGE < message.len() {
        return Err(Refusal::MessageMalformed);
    }
    let mut places = [None; 8];
    if !read_lines(message, &mut places) {
        return Err(Refusal::MessageMalformed);
    }
    let room = res.len().min(Limits::TREE);
    let written = write_array(&mut res[..room], message, &places);
    end_trace(res, written)
}
