//! Numbers as bytes, high byte first: lengths and divisors in two, and integers in eight, which are kept as their 64
//! bits. Whoever reads or writes such a number does it here.
ghost use Rattle.std.specs.Prelude.{◌≡◌, ◌+◌, ◌≤◌, ◌<◌, length, Ok};
ghost use Rattle.spec_trees.specs.Bytes.{two_limit, big};
ghost use Rattle.areas.specs.Area.{Wrote};
ghost use Rattle.areas.specs.Number.{two_at, two_bytes, word_at};

/// A byte as an index or a length.
pub fn wide(byte: u8) -> usize
    ensures { (result ≡ byte) × (result < 256) }
{
    byte as usize
}

/// A byte as 64 bits.
fn wide_word(byte: u8) -> u64
    ensures { (result ≡ byte) × (result < 256) }
{
    byte as u64
}

/// The number of two bytes that stands at `at`.
pub fn two_at(area: &[u8], at: usize) -> usize
    requires { at + 2 ≤ length area.now }
    ensures { (result ≡ two_at area.now at) × (result < two_limit) }
{
    wide(area[at]) * 256 + wide(area[at + 1])
}

/// Stores a number at `at`, in two bytes.
pub fn put_two(work: &mut [u8], at: usize, number: usize)
    requires { (at + 2 ≤ length work.old) × (number < two_limit) }
    ensures { Wrote work.old work.new at (at + 2) (two_bytes number) (Ok (at + 2)) }
{
    work[at + 1] = (number % 256) as u8;
    work[at] = (number / 256) as u8;
}

/// The 64 bits that stand at `at`.
pub fn word_at(area: &[u8], at: usize) -> u64
    requires { at + 8 ≤ length area.now }
    ensures { result ≡ word_at area.now at }
{
    let a = (wide_word(area[at]) * 256 + wide_word(area[at + 1])) * 256 + wide_word(area[at + 2]);
    let b = (a * 256 + wide_word(area[at + 3])) * 256 + wide_word(area[at + 4]);
    let c = (b * 256 + wide_word(area[at + 5])) * 256 + wide_word(area[at + 6]);
    c * 256 + wide_word(area[at + 7])
}

/// Stores 64 bits at `at`, from the last byte to the first.
pub fn put_word(work: &mut [u8], at: usize, bits: u64)
    requires { at + 8 ≤ length work.old }
    ensures { Wrote work.old work.new at (at + 8) (big 8 bits) (Ok (at + 8)) }
{
    let g = bits / 256;
    let f = g / 256;
    let e = f / 256;
    let d = e / 256;
    let c = d / 256;
    let b = c / 256;
    let a = b / 256;
    work[at + 7] = (bits % 256) as u8;
    work[at + 6] = (g % 256) as u8;
    work[at + 5] = (f % 256) as u8;
    work[at + 4] = (e % 256) as u8;
    work[at + 3] = (d % 256) as u8;
    work[at + 2] = (c % 256) as u8;
    work[at + 1] = (b % 256) as u8;
    work[at] = (a % 256) as u8;
}
