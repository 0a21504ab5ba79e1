//! The check of a query: one walk over its bytes, which reads nothing outside them and ends on any. Each function
//! answers whether the readers of `specs/Decode.antt` read the bytes, for ALL bytes. What may stand inside a field is
//! asked of the table; here are only the walk, the nesting, and the contents that hold no fields.
ghost use Rattle.std.specs.Prelude.{false, ◌≡◌, ◌≤◌, ◌<◌, length};
ghost use Rattle.std.proofs.Math.Seq.{slice};
ghost use Rattle.spec_trees.specs.Options.{some?};
ghost use Rattle.spec_trees.specs.Tree.{is_label};
ghost use Rattle.spec_queries.specs.Decode.{divisor_r, query_r, read_query};
ghost use Rattle.spec_queries.specs.Query.{is_path};
ghost use Rattle.queries.specs.Accept.{leaf, criterion_ok, data_ok, field_ok, by_rule, Tells, NextIs};
ghost use Rattle.format.specs.Check.{check_of};

use crate::table::Rule;
use crate::{path, table};
use areas::number::{two_at, wide};
use areas::span::Span;
use format::check::Fault;
use format::head::FieldAt;
use format::limits::Limits;
use format::{check, head, view};

/// A label: 1 to its limit.
#[tactic(auto, unfolding(spec_trees::specs::Tree::is_label))]
fn is_label(label: u16) -> bool
    ensures { result ≡ is_label label }
{
    (1..=Limits::LABEL).contains(&(label as usize))
}

/// A path's content: not too many steps, each a label.
fn check_path(area: &[u8], content: Span) -> bool
    requires { (content.from ≤ content.to) × (content.to ≤ length area.now) }
    ensures { result ≡ is_path (slice content.from content.to area.now) }
{
    let steps = path::count_in(content.from, content.to);
    steps <= Limits::PATH && (0..steps).all(|i| is_label(path::step_in(area, content.from, i)))
}

/// A divisor's content: two bytes, high byte first, 1 to its limit.
fn check_divisor(area: &[u8], content: Span) -> bool
    requires { (content.from ≤ content.to) × (content.to ≤ length area.now) }
    ensures { result ≡ some? (divisor_r (46, slice content.from content.to area.now)) }
{
    content.to - content.from == 2 && (1..=Limits::DIVISOR).contains(&two_at(area, content.from))
}

/// What stands next: a good field without fields, and where it ends; or a field with fields, which are to be checked.
#[derive(Clone, Copy)]
pub enum Next {
    Behind(usize),
    Inside(FieldAt),
}

/// Whether a field is good, by its tag and content, if it may hold no fields: an array, a path, a divisor.
fn check_leaf(area: &[u8], tag: u8, content: Span) -> Option<bool>
    requires { (content.from ≤ content.to) × (content.to ≤ length area.now) }
    ensures { Tells tag (slice content.from content.to area.now) result }
{
    match tag {
        1 => Some(check::check_array_field(area, tag, content, Limits::DEPTH)),
        32 => Some(check_path(area, content)),
        46 => Some(check_divisor(area, content)),
        _ => None,
    }
}

/// The field that stands first in `rest`, as a child behind `count` others; or none that may stand there.
fn next_child(area: &[u8], rule: Rule, count: usize, rest: Span) -> Option<Next>
    requires { (rest.from < rest.to) × (rest.to ≤ length area.now) }
    ensures { NextIs rule count area.now rest result }
{
    if wide(rule.most) <= count {
        return None;
    }
    let field = head::head_at(area, rest.from, rest.to)?;
    let Span { from, to } = field.content;
    if !table::allows(table::child_at(rule, count), field.tag, to - from) {
        return None;
    }
    match check_leaf(area, field.tag, field.content) {
        Some(true) => Some(Next::Behind(to)),
        Some(false) => None,
        None => Some(Next::Inside(field)),
    }
}

/// The fields inside a field, by its tag, as its rule says: each child in its place, not too many and not too few.
/// Criteria and data among them may nest `left` deep.
#[cycle(checking)]
fn check_inside(area: &[u8], field: u8, content: Span, left: usize) -> bool
    requires { (content.from ≤ content.to) × (content.to ≤ length area.now) }
    ensures { result ≡ by_rule left field (slice content.from content.to area.now) }
{
    let rule = table::rule_of(field);
    let end = content.to;
    let mut at = content.from;
    let mut count: usize = 0;
    while at != end {
        match next_child(area, rule, count, Span { from: at, to: end }) {
            Some(Next::Behind(to)) => {
                count += 1;
                at = to;
            }
            Some(Next::Inside(field)) => {
                if !check_field(area, field.tag, field.content, left) {
                    return false;
                }
                count += 1;
                at = field.content.to;
            }
            None => {
                return false;
            }
        }
    }
    wide(rule.least) <= count
}

/// A field that holds fields, by its tag and content, where criteria and data may nest `left` deep. Below a stage, an
/// item or a pair, which are in no criterion and in no data, all levels are left.
#[cycle(checking)]
fn check_field(area: &[u8], tag: u8, content: Span, left: usize) -> bool
    requires { (content.from ≤ content.to) × (content.to ≤ length area.now) × (leaf tag ≡ false) }
    ensures { result ≡ field_ok left (tag, slice content.from content.to area.now) }
{
    match tag {
        33..=39 => check_criterion(area, tag, content, left),
        40..=45 => check_data(area, tag, content, left),
        _ => check_inside(area, tag, content, Limits::NEST),
    }
}

/// A criterion by its tag and content: it counts 1, and what it holds nests one level less deep.
#[cycle(checking)]
fn check_criterion(area: &[u8], tag: u8, content: Span, left: usize) -> bool
    requires { (content.from ≤ content.to) × (content.to ≤ length area.now) × (33 ≤ tag) × (tag ≤ 39) }
    ensures { result ≡ criterion_ok left (tag, slice content.from content.to area.now) }
{
    if left == 0 {
        return false;
    }
    check_inside(area, tag, content, left - 1)
}

/// Data by their tag and content, lists and choices among them: they count 1, and what they hold nests one level less
/// deep.
#[cycle(checking)]
fn check_data(area: &[u8], tag: u8, content: Span, left: usize) -> bool
    requires { (content.from ≤ content.to) × (content.to ≤ length area.now) × (40 ≤ tag) × (tag ≤ 45) }
    ensures { result ≡ data_ok left (tag, slice content.from content.to area.now) }
{
    if left == 0 {
        return false;
    }
    check_inside(area, tag, content, left - 1)
}

/// A query field by its tag and content.
fn check_query_field(area: &[u8], tag: u8, content: Span) -> bool
    requires { (content.from ≤ content.to) × (content.to ≤ length area.now) }
    ensures { result ≡ some? (query_r (tag, slice content.from content.to area.now)) }
{
    if tag == 16 {
        check_inside(area, tag, content, Limits::NEST)
    } else {
        false
    }
}

/// The public check of a lent query, on any bytes: over its limit first, then malformed.
pub fn check_query(bytes: &[u8]) -> Result<(), Fault>
    ensures { result ≡ check_of (read_query bytes.now) }
{
    if Limits::QUERY < bytes.len() {
        return Err(Fault::Overlong);
    }
    let Some(field) = view::spanning(bytes) else {
        return Err(Fault::Malformed);
    };
    if !check_query_field(bytes, field.tag, field.content) {
        return Err(Fault::Malformed);
    }
    Ok(())
}
