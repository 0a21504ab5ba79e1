//! Integers as they stand in a tree, in two's complement. They are kept as their 64 bits and divided by their
//! magnitude, so that no signed arithmetic is needed.
ghost use Rattle.std.specs.Prelude.{◌≡◌, ◌+◌, ◌≤◌, ◌<◌, length, take};
ghost use Rattle.spec_trees.specs.Limits.{divisor_max};
ghost use Rattle.spec_trees.specs.Decode.{signed};
ghost use Rattle.spec_stages.specs.Data.{reduced_int};
ghost use Rattle.data.specs.Integer.{Reduces};

use areas::number::{put_word, word_at};

/// The integer with these bits, divided to nearest, halves away from zero.
fn reduce(bits: u64, divisor: u64) -> u64
    requires { (0 < divisor) × (divisor ≤ divisor_max) }
    ensures { (result < 18446744073709551616) × (signed result ≡ reduced_int divisor (signed bits)) }
{
    if bits < 9223372036854775808 {
        return (bits + divisor / 2) / divisor;
    }
    let m = (18446744073709551615 - bits) + 1;
    let k = (m + divisor / 2) / divisor;
    if k == 0 {
        return 0;
    }
    (18446744073709551615 - k) + 1
}

/// Divides the integer that stands at `at`.
pub fn reduce_at(work: &mut [u8], at: usize, divisor: usize)
    requires { (at + 8 ≤ length work.old) × (0 < divisor) × (divisor ≤ divisor_max) }
    ensures { (take at work.new ≡ take at work.old) × Reduces work.old work.new at divisor }
{
    let bits = word_at(work, at);
    put_word(work, at, reduce(bits, divisor as u64));
}
