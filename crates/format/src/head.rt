//! Field heads: a tag byte and a two-byte length, high byte first.
ghost use Rattle.std.specs.Prelude.{◌≡◌, ◌+◌, ◌*◌, ◌≤◌, ◌<◌, length};
ghost use Rattle.spec_trees.specs.Bytes.{two_limit};
ghost use Rattle.format.specs.Head.{head_at, len_at, low_two, span_at};

use areas::number::{two_at, wide};
use areas::span::Span;

/// A field that stands whole at a place: its tag, and where its content stands.
#[derive(Clone, Copy)]
pub struct FieldAt {
    pub tag: u8,
    pub content: Span,
}

/// The content length that the head at `at` gives.
fn len_at(area: &[u8], at: usize) -> usize
    requires { at + 3 ≤ length area.now }
    ensures { (result ≡ len_at area.now at) × (result < two_limit) }
{
    two_at(area, at + 1)
}

/// Two bytes as one number, low byte first: not what they say, but read at once.
pub fn low_two(area: &[u8], at: usize) -> usize
    requires { at + 2 ≤ length area.now }
    ensures { (result ≡ low_two area.now at) × (result < two_limit) }
{
    wide(area[at]) + wide(area[at + 1]) * 256
}

/// The same of four bytes.
pub fn low_four(area: &[u8], at: usize) -> usize
    requires { at + 4 ≤ length area.now }
    ensures { result ≡ low_two area.now at + low_two area.now (at + 2) * two_limit }
{
    low_two(area, at) + low_two(area, at + 2) * 65536
}

/// The field whose head is at `at` and which ends at or before `end`. After it nobody looks at length bytes.
pub fn head_at(area: &[u8], at: usize, end: usize) -> Option<FieldAt>
    requires { (at ≤ end) × (end ≤ length area.now) }
    ensures { result ≡ head_at area.now at end }
{
    if end - at < 3 {
        return None;
    }
    let from = at + 3;
    let to = from + len_at(area, at);
    if end < to {
        return None;
    }
    Some(FieldAt {
        tag: area[at],
        content: Span { from, to },
    })
}

/// The field that spans the bytes from `at` to `end`: its head is at `at` and it ends at `end`, so that nothing trails.
pub fn spanning_at(area: &[u8], at: usize, end: usize) -> Option<FieldAt>
    requires { (at ≤ end) × (end ≤ length area.now) }
    ensures { result ≡ span_at area.now at end }
{
    let field = head_at(area, at, end)?;
    let to = field.content.to;
    if to == end { Some(field) } else { None }
}
