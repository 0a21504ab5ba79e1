//! Where the numbers stand by which an array is arranged: in rooms that are free before the first class is fed.
ghost use Rattle.std.specs.Prelude.{◌≡◌};
ghost use Rattle.key_index.specs.Index.{parts};

use format::limits::Limits;
use map::map::Map;

/// Places in a work area of 65,536 bytes, and distances. A tree has six bytes or more, so each has six bytes of its own
/// below it, at three distances: as far below as the collected trees stand above the front part.
#[derive(Clone, Copy)]
pub struct Index;

impl Index {
    /// The numbers of the arranged trees, behind them.
    pub const NUMBERS: usize = Limits::ARRAY;

    /// The last tree of each slot that was entered, behind the bytes of the trees' own.
    pub const HEADS: usize = Map::FRONT + Limits::ARRAY;

    /// How many slots there are.
    pub const SLOTS: usize = 2048;

    /// The subsets of the grouping pairs are below this.
    pub const SUBSETS: usize = 16;

    /// How many classes each subset has.
    pub const COUNTS: usize = Index::HEADS + 2 * Index::SLOTS;

    /// The collected trees.
    pub const TREES: usize = Map::COLLECTED;

    /// How far below a tree the last before it with its slot is noted.
    pub const BACK: usize = Index::TREES - Map::FRONT;

    /// How far below a tree the next with its key is noted.
    pub const NEXT: usize = Index::BACK - 2;

    /// How far below a tree its mark stands.
    pub const MARK: usize = Index::BACK - 4;
}

/// The places as values, so that a contract can speak of them all at once.
#[derive(Clone, Copy)]
pub struct Parts {
    pub numbers: usize,
    pub heads: usize,
    pub slots: usize,
    pub subsets: usize,
    pub counts: usize,
    pub trees: usize,
    pub back: usize,
    pub next: usize,
    pub mark: usize,
}

/// Each constant is the definitions' number of that name: constants are inlined, so only a contract can tie the two.
pub fn all() -> Parts
    ensures { result ≡ parts }
{
    Parts {
        numbers: Index::NUMBERS,
        heads: Index::HEADS,
        slots: Index::SLOTS,
        subsets: Index::SUBSETS,
        counts: Index::COUNTS,
        trees: Index::TREES,
        back: Index::BACK,
        next: Index::NEXT,
        mark: Index::MARK,
    }
}
