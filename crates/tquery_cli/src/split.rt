//! Where the pieces of the program's input end.
ghost use Rattle.std.specs.Prelude.{◌≡◌, ◌≤◌, length};
ghost use Rattle.spec_run.specs.Program.{program_max};
ghost use Rattle.tquery_cli.specs.Split.{piece_end};

use areas::number::wide;

/// Where the piece that begins at `from` ends: as long as its head says, or what is left. Fewer than three bytes have
/// no head, and are all that is left.
pub fn piece_end(input: &[u8], from: usize) -> usize
    requires { (from ≤ length input.now) × (length input.now ≤ program_max) }
    ensures { result ≡ piece_end input.now from }
{
    if input.len() < from + 3 {
        return input.len();
    }
    let e = from + 3 + (wide(input[from + 1]) * 256 + wide(input[from + 2]));
    if e < input.len() {
        return e;
    }
    input.len()
}
