//! Stages: where those of a query stand, which one stands at a place, and where its parts stand.
//! Where a stage ends and the next begins, `areas::area::field_end` says, as for items, pairs and members.
ghost use Rattle.std.specs.Prelude.{◌≡◌};
ghost use Rattle.queries.specs.Places.{TagNot, HoldsAt, group_of, stage_bytes, ReadsStage, ReadsQuery};

use areas::area::field_end;
use areas::span::Span;

/// Where the pairs of a group stand, one behind another: its aggregates, and the pairs of its key.
#[derive(Clone, Copy)]
pub struct GroupAt {
    pub aggregates: Span,
    pub keys: Span,
}

/// Where the paths of a lookup stand: the tree's, the joined trees', and where their matches are placed.
#[derive(Clone, Copy)]
pub struct LookupAt {
    pub own: Span,
    pub theirs: Span,
    pub target: Span,
}

/// A stage by the places of its parts, as `CriterionAt` has them. A project's items stand one behind another.
#[derive(Clone, Copy)]
pub enum StageAt {
    Match(Span),
    Unwind(Span),
    Project(Span),
    Group(GroupAt),
    Lookup(LookupAt),
}

impl StageAt {
    /// Where the pairs of the group stand, if the stage is one.
    pub fn group(self) -> Option<GroupAt>
        ensures { result ≡ group_of self }
    {
        match self {
            StageAt::Match(_) => None,
            StageAt::Unwind(_) => None,
            StageAt::Project(_) => None,
            StageAt::Group(group) => Some(group),
            StageAt::Lookup(_) => None,
        }
    }
}

/// Where the stages of a query stand, one behind another.
pub fn stages_of(query: &[u8]) -> Span
    ensures { ReadsQuery query.now result }
{
    Span {
        from: 3,
        to: query.len(),
    }
}

/// The stage of several parts that stands there: a group or a lookup.
fn several_at(query: &[u8], stage: Span) -> StageAt
    requires { HoldsAt stage_bytes query.now stage × TagNot query.now stage.from 17 × TagNot query.now stage.from 18 × TagNot query.now stage.from 19 }
    ensures { ReadsStage query.now stage result }
{
    let at = stage.from;
    let to = stage.to;
    let tag = query[at];
    let m = field_end(query, at + 3);
    if tag == 20 {
        return StageAt::Group(GroupAt {
            aggregates: Span {
                from: at + 6,
                to: m,
            },
            keys: Span { from: m + 3, to },
        });
    }
    let n = field_end(query, m);
    StageAt::Lookup(LookupAt {
        own: Span {
            from: at + 3,
            to: m,
        },
        theirs: Span { from: m, to: n },
        target: Span { from: n, to },
    })
}

/// The stage that stands there.
pub fn stage_at(query: &[u8], stage: Span) -> StageAt
    requires { HoldsAt stage_bytes query.now stage }
    ensures { ReadsStage query.now stage result }
{
    let at = stage.from;
    let tag = query[at];
    let one = Span {
        from: at + 3,
        to: stage.to,
    };
    if tag == 17 {
        return StageAt::Match(one);
    }
    if tag == 18 {
        return StageAt::Unwind(one);
    }
    if tag == 19 {
        return StageAt::Project(one);
    }
    several_at(query, stage)
}
