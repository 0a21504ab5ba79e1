//! The map of the work area. In a stretch that begins with a group the array that entered it stands at the front. At
//! the end of every lent tail is the collector. Between them stand the rooms of the stages' trees and those for
//! building, of `Limits::TREE` bytes each. Behind all that is lent to the stages stand the positions of the collected
//! trees. `specs/MapLaws` shows that all fits.
ghost use Rattle.std.specs.Prelude.{◌≡◌};
ghost use Rattle.map.specs.Map.{parts};

use format::limits::Limits;

/// The parts of the work area that stand at fixed places, by name.
#[derive(Clone, Copy)]
pub struct Map;

impl Map {
    /// The most bytes that the trees of an array take: its head is not among them.
    pub const TREES: usize = Limits::ARRAY - 3;

    /// A number of two bytes for each tree that an array may have: the positions that the trees bear. Those of the
    /// arranged trees stand behind them at the front, those of the collected trees at the end of the work area.
    pub const NUMBERS: usize = 2 * Limits::POSITIONS;

    /// The front part, before the trees of a later stretch: the array that entered its group.
    pub const FRONT: usize = Limits::ARRAY + Map::NUMBERS;

    /// The end part of every lent tail: the collected array.
    pub const END: usize = Limits::ARRAY;

    /// What is lent to the stages: all but the positions of the collected trees, which the stages so cannot change.
    pub const LENT: usize = Limits::WORK - Map::NUMBERS;

    /// The collected array, at the end of what is lent.
    pub const COLLECTED: usize = Map::LENT - Map::END;
}

/// The parts as values, so that a contract can speak of them all at once.
#[derive(Clone, Copy)]
pub struct Parts {
    pub trees: usize,
    pub numbers: usize,
    pub front: usize,
    pub end: usize,
    pub lent: usize,
    pub collected: usize,
}

/// Each constant is the definitions' number of that name: constants are inlined, so only a contract can tie the two.
pub fn all() -> Parts
    ensures { result ≡ parts }
{
    Parts {
        trees: Map::TREES,
        numbers: Map::NUMBERS,
        front: Map::FRONT,
        end: Map::END,
        lent: Map::LENT,
        collected: Map::COLLECTED,
    }
}
