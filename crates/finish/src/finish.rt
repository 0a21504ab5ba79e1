//! The end of a call: the array that the stages gave is written to the result area, or the area is cleared; or the call
//! is refused before the stages.
ghost use Rattle.std.specs.Prelude.{◌≡◌, ◌++◌, cond, ◌+◌, ◌≤◌, length, replicate};
ghost use Rattle.spec_trees.specs.Limits.{array_max};
ghost use Rattle.areas.specs.Area.{head_bytes};
ghost use Rattle.spec_run.specs.Refusal.{keeps_work};
ghost use Rattle.finish.specs.Finish.{AcceptReady, Accepts, FinishReady, Finishes};

use areas::area::{clear, emit, put_head};
use map::map::Map;
use spec_run::answer::{Answer, Refusal};
use stretches::ended::Failure;

/// Whether a refusal leaves the work area as it was.
#[tactic(auto, unfolding(spec_run::specs::Refusal::keeps_work))]
fn keeps_work(refusal: Refusal) -> bool
    ensures { result ≡ keeps_work refusal }
{
    match refusal {
        Refusal::WorkShort | Refusal::PositionsShort => true,
        _ => false,
    }
}

/// A refusal before the stages: the work area is zero, unless the refusal keeps it; no other area is touched.
pub fn refuse(refusal: Refusal, work: &mut [u8]) -> Answer
    ensures { (result ≡ Err refusal) × (work.new ≡ cond (keeps_work refusal) work.old (replicate (length work.old) 0)) }
{
    if keeps_work(refusal) {
        return Err(refusal);
    }
    clear(work);
    Err(refusal)
}

/// A refusal in or after the stages: the result area is zero.
fn fail(refusal: Refusal, res: &mut [u8]) -> Answer
    ensures { (result ≡ Err refusal) × (res.new ≡ replicate (length res.old) 0) }
{
    clear(res);
    Err(refusal)
}

/// Writes the array whose trees are `trees` over all of `out`: its head, and the trees directly behind it.
fn write_array(out: &mut [u8], trees: &[u8])
    requires { (length out.old ≡ length trees.now + 3) × (length out.old ≤ array_max) }
    ensures { out.new ≡ head_bytes 1 (length trees.now) ++ trees.now }
{
    let end = out.len();
    put_head(out, 0, 1, end);
    let _ = emit(out, 3, trees);
}

/// The array of whose trees the collector holds `len` bytes: it is written, if the result area has room for it.
fn accept(work: &[u8], len: usize, res: &mut [u8]) -> Answer
    requires { AcceptReady work.now len }
    ensures { Accepts work.now len res.old res.new result }
{
    if res.len() < len + 3 {
        return fail(Refusal::ResultLong, res);
    }
    let from = Map::COLLECTED;
    write_array(&mut res[..len + 3], &work[from..from + len]);
    Ok(len + 3)
}

/// The answer of a call whose stages ended so.
pub fn finish(work: &[u8], ended: Result<usize, Failure>, res: &mut [u8]) -> Answer
    requires { FinishReady work.now ended }
    ensures { Finishes work.now ended res.old res.new result }
{
    match ended {
        Ok(n) => accept(work, n, res),
        Err(failure) => fail(Refusal::from(failure), res),
    }
}
