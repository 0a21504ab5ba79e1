//! Bytes compared: nothing else compares two areas. A stretch is words of eight bytes from its beginning on, and single
//! bytes at its end. Fields of one kind begin alike, so it is compared from its end on: the last single byte first, the
//! first word last.
ghost use Rattle.std.specs.Prelude.{◌≡◌};
ghost use Rattle.spec_trees.specs.Lists.{same_bytes};
ghost use Rattle.compare.specs.Compare.{IsComparison};

use crate::words::compare_words;

/// What comparing found, and in how many steps. A step compares a word with a word, or a single byte with one.
#[derive(Clone, Copy)]
pub struct Comparison {
    pub same: bool,
    pub steps: usize,
}

/// Compares two areas, and counts its steps.
pub fn compare(one: &[u8], other: &[u8]) -> Comparison
    ensures { IsComparison one.now other.now result }
{
    let mut steps = 0;
    if one.len() != other.len() {
        return Comparison { same: false, steps };
    }
    let mut i = one.len();
    // by hand, since a `for` has no measure: here it is what is left to do, in steps
    while i % 8 != 0 {
        i -= 1;
        steps += 1;
        if one[i] != other[i] {
            return Comparison { same: false, steps };
        }
    }
    compare_words(one, other, i, steps)
}

/// Whether two areas hold the same bytes.
pub fn same_bytes(one: &[u8], other: &[u8]) -> bool
    ensures { result ≡ same_bytes one.now other.now }
{
    compare(one, other).same
}
