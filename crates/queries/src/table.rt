//! The table: for each tag the tags that may stand inside it, in which order and how many. It is one constant, `RULES`,
//! which the checker consults, so that what a query is made of is said in one place.
ghost use Rattle.std.specs.Prelude.{◌≡◌};
ghost use Rattle.queries.specs.Table.{range, may_be, allowed, child_by, child_at, rule_at};
ghost use Rattle.queries.specs.Numbers.{kind_of, kind_at};

use format::limits::Limits;

/// The kinds of children.
#[derive(Clone, Copy, Debug, PartialEq, Eq)]
pub enum Kind {
    /// No child.
    Nothing,
    Array,
    Stage,
    Path,
    /// A path that is applied.
    Route,
    /// A path that must not be empty.
    Given,
    Criterion,
    Data,
    Divisor,
    Item,
    Pair,
    /// A pair, which may be a total.
    Aggregate,
    Aggregates,
    Grouping,
}

/// What a child may be: its tag is `low` to `high`, or `also`, or `further`, and its content has at least `least` bytes.
/// The two further tags are wider than a byte, so that there is a number that no tag is.
#[derive(Clone, Copy)]
pub struct Child {
    pub low: u8,
    pub high: u8,
    pub also: u16,
    pub further: u16,
    pub least: u8,
}

impl Child {
    /// No child: no tag is 1 to 0, and no byte is 256.
    const NOTHING: Child = Child {
        low: 1,
        high: 0,
        also: 256,
        further: 256,
        least: 0,
    };

    /// With the tags `low` to `high`, and no further ones: the first stands for them.
    fn range(low: u8, high: u8) -> Self
        ensures { result ≡ range low high }
    {
        Child {
            low,
            high,
            also: low as u16,
            further: low as u16,
            least: 0,
        }
    }
}

/// What may stand inside a field: the kinds of its first child, of its second and of the rest, and how many there are.
#[derive(Clone, Copy)]
pub struct Rule {
    pub first: Kind,
    pub second: Kind,
    pub rest: Kind,
    pub least: u8,
    pub most: u8,
}

/// No content passes, not even an empty one: the least count is above the greatest.
const NEVER: Rule = Rule {
    first: Kind::Nothing,
    second: Kind::Nothing,
    rest: Kind::Nothing,
    least: 1,
    most: 0,
};

/// Just these children, up to three.
macro_rules! just {
    () => {
        Rule { least: 0, ..NEVER }
    };
    ($first:ident) => {
        Rule {
            first: Kind::$first,
            least: 1,
            most: 1,
            ..NEVER
        }
    };
    ($first:ident, $second:ident) => {
        Rule {
            first: Kind::$first,
            second: Kind::$second,
            least: 2,
            most: 2,
            ..NEVER
        }
    };
    ($first:ident, $second:ident, $third:ident) => {
        Rule {
            first: Kind::$first,
            second: Kind::$second,
            rest: Kind::$third,
            least: 3,
            most: 3,
        }
    };
}

/// From `least` to `most` children of one kind.
macro_rules! many {
    ($kind:ident, $least:expr, $most:expr) => {
        Rule {
            first: Kind::$kind,
            second: Kind::$kind,
            rest: Kind::$kind,
            least: $least,
            most: $most as u8,
        }
    };
}

/// The table: by tag, what may stand inside such a field.
static RULES: [Rule; 55] = [
    // 0 to 15 belong to trees
    NEVER,
    NEVER,
    NEVER,
    NEVER,
    NEVER,
    NEVER,
    NEVER,
    NEVER,
    NEVER,
    NEVER,
    NEVER,
    NEVER,
    NEVER,
    NEVER,
    NEVER,
    NEVER,
    // 16 query
    many!(Stage, 0, Limits::STAGES),
    // 17 match, 18 unwind, 19 project, 20 group, 21 lookup
    just!(Criterion),
    just!(Path),
    many!(Item, 1, Limits::ITEMS),
    just!(Aggregates, Grouping),
    just!(Route, Route, Given),
    // 22 to 31 are no tags
    NEVER,
    NEVER,
    NEVER,
    NEVER,
    NEVER,
    NEVER,
    NEVER,
    NEVER,
    NEVER,
    NEVER,
    // 32 path: labels, and no fields
    NEVER,
    // 33 true, 34 exists, 35 equal, 36 same, 37 not, 38 and, 39 or
    just!(),
    just!(Route),
    just!(Route, Array),
    just!(Route, Route),
    just!(Criterion),
    just!(Criterion, Criterion),
    just!(Criterion, Criterion),
    // 40 literal, 41 path, 42 list, 43 criterion, 44 choice, 45 reduced
    just!(Array),
    just!(Route),
    many!(Data, 1, Limits::MEMBERS),
    just!(Criterion),
    just!(Criterion, Data, Data),
    just!(Route, Divisor),
    // 46 divisor: two bytes, and no fields
    NEVER,
    // 47 keep, 48 place
    just!(Path),
    just!(Data, Given),
    // 49 pair, 50 aggregates, 51 grouping
    just!(Route, Given),
    many!(Aggregate, 0, Limits::AGGREGATES),
    many!(Pair, 0, Limits::GROUPING),
    // 52 and 53 are no tags
    NEVER,
    NEVER,
    // 54 total
    just!(Route, Given),
];

/// The rule of a tag. A tag that the table does not have may hold nothing.
#[tactic(auto, unfolding(crate::specs::Table::rule_at))]
pub fn rule_of(tag: u8) -> Rule
    ensures { result ≡ rule_at tag }
{
    RULES.get(tag as usize).copied().unwrap_or(NEVER)
}

impl Kind {
    /// What a child of this kind may be.
    #[tactic(auto, unfolding(crate::specs::Table::child_by))]
    pub fn child(self) -> Child
        ensures { result ≡ child_by self }
    {
        match self {
            Kind::Nothing => Child::NOTHING,
            Kind::Array => Child::range(1, 1),
            Kind::Stage => Child::range(17, 21),
            // the same for now
            Kind::Path | Kind::Route => Child::range(32, 32),
            Kind::Given => Child {
                least: 1,
                ..Child::range(32, 32)
            },
            Kind::Criterion => Child::range(33, 39),
            Kind::Data => Child::range(40, 45),
            Kind::Divisor => Child::range(46, 46),
            Kind::Item => Child::range(47, 48),
            Kind::Pair => Child::range(49, 49),
            Kind::Aggregate => Child {
                also: 54,
                further: 54,
                ..Child::range(49, 49)
            },
            Kind::Aggregates => Child::range(50, 50),
            Kind::Grouping => Child::range(51, 51),
        }
    }
}

/// The kinds by number, for those who name one so.
static KINDS: [Kind; 14] = [
    Kind::Nothing,
    Kind::Array,
    Kind::Stage,
    Kind::Path,
    Kind::Route,
    Kind::Given,
    Kind::Criterion,
    Kind::Data,
    Kind::Divisor,
    Kind::Item,
    Kind::Pair,
    Kind::Aggregate,
    Kind::Aggregates,
    Kind::Grouping,
];

/// A number that no kind has is that of no child.
impl From<u8> for Kind {
    ghost from_gives = { λ number kind. kind ≡ kind_of number };

    #[tactic(auto, unfolding(crate::specs::Numbers::kind_of))]
    fn from(number: u8) -> Kind {
        KINDS.get(number as usize).copied().unwrap_or(Kind::Nothing)
    }
}

/// What a child may be whose kind has this number.
#[tactic(auto, using(crate::specs::NumbersLaws::kind_numbered))]
pub fn child_of(kind: u8) -> Child
    ensures { result ≡ kind_at kind }
{
    Kind::from(kind).child()
}

/// What the child behind `count` others may be.
#[tactic(auto, unfolding(crate::specs::Table::child_at))]
pub fn child_at(rule: Rule, count: usize) -> Child
    ensures { result ≡ child_at rule count }
{
    match count {
        0 => rule.first.child(),
        1 => rule.second.child(),
        _ => rule.rest.child(),
    }
}

/// Whether a child may have this tag: one of the range, or one of the further tags.
#[tactic(auto, unfolding(crate::specs::Table::may_be))]
fn may_be(child: Child, tag: u8) -> bool
    ensures { result ≡ may_be child tag }
{
    let wide = tag as u16;
    (child.low..=child.high).contains(&tag) || wide == child.also || wide == child.further
}

/// Whether a child may have this tag and this many content bytes.
#[tactic(auto, unfolding(crate::specs::Table::allowed))]
pub fn allows(child: Child, tag: u8, len: usize) -> bool
    ensures { result ≡ allowed child tag len }
{
    may_be(child, tag) && child.least as usize <= len
}
