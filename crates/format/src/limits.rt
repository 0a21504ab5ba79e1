//! The limits of the format, by name. Every test of a limit reads it here.
ghost use Rattle.std.specs.Prelude.{◌≡◌};
ghost use Rattle.format.specs.Named.{named};

/// The documents' limits. They belong to the format, so a test says `Limits::TREE` and never a number.
#[derive(Clone, Copy)]
pub struct Limits;

impl Limits {
    pub const ARRAY: usize = 16384;

    pub const TREE: usize = 2048;

    pub const QUERY: usize = 4096;

    pub const DEPTH: usize = 16;

    pub const LABEL: usize = 255;

    pub const TEXT: usize = 255;

    pub const PATH: usize = 8;

    pub const NEST: usize = 8;

    pub const STAGES: usize = 8;

    pub const ITEMS: usize = 16;

    pub const MEMBERS: usize = 8;

    pub const AGGREGATES: usize = 8;

    pub const GROUPING: usize = 4;

    pub const DIVISOR: usize = 10000;

    pub const WORK: usize = 65536;

    /// In entries.
    pub const POSITIONS: usize = 2730;
}

/// The limits as values, so that a contract can speak of them all at once.
#[derive(Clone, Copy)]
pub struct Named {
    pub array: usize,
    pub tree: usize,
    pub query: usize,
    pub depth: usize,
    pub label: usize,
    pub text: usize,
    pub path: usize,
    pub nest: usize,
    pub stages: usize,
    pub items: usize,
    pub members: usize,
    pub aggregates: usize,
    pub grouping: usize,
    pub divisor: usize,
    pub work: usize,
    pub positions: usize,
}

/// Each constant is the definitions' number of that name: constants are inlined, so only a contract can tie the two.
pub fn all() -> Named
    ensures { result ≡ named }
{
    Named {
        array: Limits::ARRAY,
        tree: Limits::TREE,
        query: Limits::QUERY,
        depth: Limits::DEPTH,
        label: Limits::LABEL,
        text: Limits::TEXT,
        path: Limits::PATH,
        nest: Limits::NEST,
        stages: Limits::STAGES,
        items: Limits::ITEMS,
        members: Limits::MEMBERS,
        aggregates: Limits::AGGREGATES,
        grouping: Limits::GROUPING,
        divisor: Limits::DIVISOR,
        work: Limits::WORK,
        positions: Limits::POSITIONS,
    }
}
