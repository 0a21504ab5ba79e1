//! The exact sum of integers of 64 bits, in two words. A sum may leave 64 bits on the way and come back, so that neither a
//! wrapped nor a clamped sum will do. It is kept as a number of halves, 2^63 each, counted from a middle, and of what is
//! left, below a half: each integer moves the number of halves by one at most, and nothing is signed.
ghost use Rattle.std.specs.Prelude.{◌≡◌, ◌+◌, ◌<◌};
ghost use Rattle.std.proofs.Math.Option.{none, some};
ghost use Rattle.spec_trees.specs.Decode.{signed};
ghost use Rattle.totals.specs.Exact.{middle, IsTotal, Sound, Adds, Fits, BitsOf};

/// How many integers were added, and their sum, which is (high - MIDDLE) * HALF + low.
#[derive(Clone, Copy)]
pub struct Total {
    pub count: u64,
    pub high: u64,
    pub low: u64,
}

impl Total {
    const HALF: u64 = 9223372036854775808;

    const MIDDLE: u64 = 65536;
}

/// The total of no integers.
pub fn nothing() -> Total
    ensures { (result.count ≡ 0) × IsTotal result none }
{
    Total {
        count: 0,
        high: Total::MIDDLE,
        low: 0,
    }
}

/// The total with the integer more that has these bits.
pub fn add(total: Total, bits: u64) -> Total
    requires { Sound total × (total.count < middle) }
    ensures { (result.count ≡ total.count + 1) × Adds total result (some (signed bits)) }
{
    let low = total.low + bits % Total::HALF;
    let carry = low / Total::HALF;
    let sign = bits / Total::HALF;
    Total {
        count: total.count + 1,
        high: total.high + carry - sign,
        low: low % Total::HALF,
    }
}

/// Whether the total fits a signed integer of 64 bits. That of no integers does.
pub fn fits_signed(total: Total) -> bool
    ensures { Fits total result }
{
    if total.high == Total::MIDDLE {
        return true;
    }
    total.high == Total::MIDDLE - 1
}

/// The bits of a total that fits.
pub fn bits(total: Total) -> u64
    requires { Sound total }
    ensures { BitsOf total result }
{
    if total.high == Total::MIDDLE {
        return total.low;
    }
    total.low + Total::HALF
}
