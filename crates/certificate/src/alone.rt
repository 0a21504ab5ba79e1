//! Each stage alone gives exactly the array of document 01's definitions, or the refusal that their limits name.
ghost use Rattle.certificate.specs.Alone.{AloneGives};

use engine::run::run;
use spec_run::answer::Answer;

/// Runs a query of one stage over an array, with a joined array.
pub fn alone<'a>(
    query: &'a [u8],
    input: &'a [u8],
    joined: &'a [u8],
    work: &mut [u8],
    res: &mut [u8],
    positions: &mut [u16],
) -> Answer
    ensures { AloneGives
        query.now input.now joined.now work.old res.old positions.old
        result res.new positions.new }
{
    run(query, input, joined, work, res, positions)
}
