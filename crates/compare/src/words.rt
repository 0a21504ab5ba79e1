//! Words: eight bytes as one number, low byte first, so that a compiler makes one load of them; and words compared.
ghost use Rattle.std.specs.Prelude.{◌≡◌, ◌+◌, ◌%◌, ◌^◌, ◌≤◌, ◌<◌, length};
ghost use Rattle.compare.specs.Compare.{low_at, IsComparison, SameFrom};

use crate::compare::Comparison;

/// A byte as 64 bits.
fn wide(byte: u8) -> u64
    ensures { (result ≡ byte) × (result < 256) }
{
    byte as u64
}

/// The four bytes from `at` on.
fn half(area: &[u8], at: usize) -> u64
    requires { at + 4 ≤ length area.now }
    ensures { (result ≡ low_at 4 area.now at) × (result < 2 ^ 32) }
{
    let a = wide(area[at]) + 256 * wide(area[at + 1]);
    let b = wide(area[at + 2]) + 256 * wide(area[at + 3]);
    a + 65536 * b
}

/// The eight bytes from `at` on.
fn word(area: &[u8], at: usize) -> u64
    requires { at + 8 ≤ length area.now }
    ensures { result ≡ low_at 8 area.now at }
{
    half(area, at) + 4294967296 * half(area, at + 4)
}

/// Compares the words that end at `end`, where all behind them is the same, and has taken `taken` steps.
pub fn compare_words(one: &[u8], other: &[u8], end: usize, taken: usize) -> Comparison
    requires { SameFrom one.now other.now end taken × (end % 8 ≡ 0) }
    ensures { IsComparison one.now other.now result }
{
    let mut steps = taken;
    let mut i = end;
    // by hand, as the loop over single bytes
    while 8 <= i {
        i -= 8;
        steps += 1;
        if word(one, i) != word(other, i) {
            return Comparison { same: false, steps };
        }
    }
    Comparison { same: true, steps }
}
