//! The cut: two accepted runs, one after the other, give what the uncut run gives.
ghost use Rattle.certificate.specs.Cut.{MakesRuns, CutSame};

use engine::answer::length;
use engine::run::run;
use format::limits::Limits;
use spec_run::answer::Answer;

/// The answers of three runs: of the two parts of a query, and of the uncut query.
#[derive(Clone, Copy)]
pub struct Runs {
    pub first: Answer,
    pub second: Answer,
    pub uncut: Answer,
}

/// Runs `before` over the input, `behind` over its result, and then `query` over the input, all with the same joined
/// array and each in the least work area, with a position area of its own of the least length. The second run has a
/// result area of its own, in which its result stays; the other two have the first, in which the uncut run's result
/// stays.
pub fn cut<'a>(
    query: &'a [u8],
    before: &'a [u8],
    behind: &'a [u8],
    input: &'a [u8],
    joined: &'a [u8],
    first: &mut [u8],
    second: &mut [u8],
) -> Runs
    ensures makes_runs { MakesRuns query.now before.now behind.now input.now joined.now
        first.old second.old result first.new second.new }
    ensures cut_same { CutSame query.now before.now behind.now
        first.old second.old result first.new second.new }
{
    let mut work = [0u8; Limits::WORK];
    let mut one = [0u16; Limits::POSITIONS];
    let mut two = [0u16; Limits::POSITIONS];
    let mut three = [0u16; Limits::POSITIONS];
    let a = run(before, input, joined, &mut work, first, &mut one);
    let n = length(a);
    let b = run(behind, &first[..n], joined, &mut work, second, &mut two);
    let c = run(query, input, joined, &mut work, first, &mut three);
    Runs {
        first: a,
        second: b,
        uncut: c,
    }
}
