//! Whether a query is one group alone whose tray results can be grouped again: none of its aggregates is a total, all its
//! destinations, of the aggregates and of the key together, are single labels, and no two are equal.
ghost use Rattle.std.specs.Prelude.{◌≡◌};
ghost use Rattle.spec_trees.specs.Lists.{All};
ghost use Rattle.spec_queries.specs.Rules.{OkPair};
ghost use Rattle.queries.specs.Places.{pairs_bytes, HoldsAt, OkAt};
ghost use Rattle.trays.specs.TrayGroup.{QueryForm, TargetsReady, GroupStands, NoneLeadsIs, AloneIs, ApartIs, DistinctIs, NoTotalsIs, RegroupsIs, TrayGroupIs};

use areas::area::field_end;
use areas::span::Span;
use format::fields::fields_in;
use queries::item::{is_total, pair_at};
use queries::path::{step_at, steps};
use queries::stage::{GroupAt, stage_at, stages_of};

/// Whether no destination of the pairs begins with the label.
fn none_leads(query: &[u8], pairs: Span, label: u16) -> bool
    requires { OkAt (All OkPair) pairs_bytes query.now pairs }
    ensures { NoneLeadsIs query.now pairs label result }
{
    for field in fields_in(query, pairs) {
        let pair = pair_at(query, field);
        if step_at(query, pair.target, 0) == label {
            return false;
        }
    }
    true
}

/// Whether the destination is a single label with which no destination begins of the pairs behind it and of the others.
fn alone(query: &[u8], target: Span, behind: Span, others: Span) -> bool
    requires { TargetsReady query.now target behind others }
    ensures { AloneIs query.now target behind others result }
{
    if steps(query, target) != 1 {
        return false;
    }
    let label = step_at(query, target, 0);
    if !none_leads(query, behind, label) {
        return false;
    }
    none_leads(query, others, label)
}

/// Whether each destination of the pairs stands alone among those behind it and those of the others.
fn apart(query: &[u8], pairs: Span, others: Span) -> bool
    requires { OkAt (All OkPair) pairs_bytes query.now pairs × OkAt (All OkPair) pairs_bytes query.now others }
    ensures { ApartIs query.now pairs others result }
{
    let end = pairs.to;
    for field in fields_in(query, pairs) {
        let pair = pair_at(query, field);
        let behind = Span {
            from: field.to,
            to: end,
        };
        if !alone(query, pair.target, behind, others) {
            return false;
        }
    }
    true
}

/// Whether all destinations of the group are single labels, and no two are equal.
fn distinct(query: &[u8], group: GroupAt) -> bool
    requires { GroupStands query.now group }
    ensures { DistinctIs query.now group result }
{
    let keys = group.keys;
    if !apart(query, group.aggregates, keys) {
        return false;
    }
    let end = keys.to;
    apart(query, keys, Span { from: end, to: end })
}

/// Whether none of the pairs is a total.
fn no_totals(query: &[u8], pairs: Span) -> bool
    requires { HoldsAt pairs_bytes query.now pairs }
    ensures { NoTotalsIs query.now pairs result }
{
    for pair in fields_in(query, pairs) {
        if is_total(query, pair) {
            return false;
        }
    }
    true
}

/// Whether the group's tray results can be grouped again.
fn regroups(query: &[u8], group: GroupAt) -> bool
    requires { GroupStands query.now group }
    ensures { RegroupsIs query.now group result }
{
    if !no_totals(query, group.aggregates) {
        return false;
    }
    distinct(query, group)
}

/// Where the pairs of the group stand, if an admitted query is one such group alone. For any other, as where tag 54 stands, the regrouping call
/// gives 3.
pub fn tray_group(query: &[u8]) -> Option<GroupAt>
    requires { QueryForm query.now }
    ensures { TrayGroupIs query.now result }
{
    let stages = stages_of(query);
    let end = stages.to;
    if stages.from == end {
        return None;
    }
    if field_end(query, stages.from) != end {
        return None;
    }
    let group = stage_at(query, stages).group()?;
    if !regroups(query, group) {
        return None;
    }
    Some(group)
}
