//! The next group of a query's stages: a stretch ends before it.
ghost use Rattle.queries.specs.Places.{HoldsAt, stages_bytes};
ghost use Rattle.stretch.specs.Next.{NextPost};

use areas::area::field_end;
use areas::span::Span;
use queries::stage::{GroupAt, stage_at};

/// A group's pairs, and the stages behind it.
#[derive(Clone, Copy)]
pub struct StretchAt {
    pub group: GroupAt,
    pub next: Span,
}

/// The first group among the stages, with the stages behind it.
pub fn next_group(query: &[u8], stages: Span) -> Option<StretchAt>
    requires { HoldsAt stages_bytes query.now stages }
    ensures { NextPost query.now stages result }
{
    let to = stages.to;
    let mut at = stages.from;
    while at != to {
        let m = field_end(query, at);
        let stage = stage_at(query, Span { from: at, to: m });
        if let Some(group) = stage.group() {
            let next = Span { from: m, to };
            return Some(StretchAt { group, next });
        }
        at = m;
    }
    None
}
