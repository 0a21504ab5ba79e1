//! The program's answer to what stands on its standard input.
ghost use Rattle.std.specs.Prelude.{◌≡◌, take};
ghost use Rattle.spec_run.specs.Program.{program_max, program};
ghost use Rattle.tquery_cli.specs.Text.{Begins};
ghost use Rattle.tquery_cli.specs.Respond.{ShowReady, ShowsAnswer, RespondReady};

use crate::split::piece_end;
use crate::text::{write_hex, write_refused};
use engine::answer::refusal_number;
use engine::run::run;
use format::limits::Limits;
use spec_run::answer::Answer;

/// How many bytes the program reads of an input at most.
pub const READ: usize = 65536;

/// Writes an answer as text at the start of an area: where the text ends.
fn write_answer(answer: Answer, res: &[u8], text: &mut [u8]) -> usize
    requires { ShowReady answer res.now text.old }
    ensures { ShowsAnswer answer res.now text.new result }
{
    match answer {
        Ok(n) => write_hex(text, &res[..n]),
        Err(r) => write_refused(text, refusal_number(r)),
    }
}

/// The bytes that the program reads of an input.
fn read_part(input: &[u8]) -> &[u8]
    ensures { result.now ≡ take program_max input.now }
{
    if READ < input.len() {
        &input[..READ]
    } else {
        input
    }
}

/// Answers what is read of an input in these areas: the query and then the input, each as long as its head says or
/// what is left, then the joined array, all the rest. The text of the answer is written at the start of an area:
/// where it ends. The positions of the result trees are not shown.
fn respond_in(
    input: &[u8],
    work: &mut [u8],
    res: &mut [u8],
    positions: &mut [u16],
    text: &mut [u8],
) -> usize
    requires { RespondReady input.now work.old res.old positions.old text.old }
    ensures { Begins text.new (program input.now) result }
{
    let m = piece_end(input, 0);
    let n = piece_end(input, m);
    let answer = run(&input[..m], &input[m..n], &input[n..], work, res, positions);
    write_answer(answer, res, text)
}

/// Answers an input of any length. The text of the answer is written at the start of an area that holds every answer:
/// where it ends.
pub fn respond(input: &[u8], text: &mut [u8; 32800]) -> usize
    ensures { Begins text.new (program input.now) result }
{
    let mut work = [0u8; Limits::WORK];
    let mut result = [0u8; Limits::ARRAY];
    let mut positions = [0u16; Limits::POSITIONS];
    respond_in(
        read_part(input),
        &mut work,
        &mut result,
        &mut positions,
        text,
    )
}
