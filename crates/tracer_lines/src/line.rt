//! One line: a name, an equals sign, one or two values, the line's end.
ghost use Rattle.std.specs.Prelude.{◌≡◌, ◌≤◌, length};
ghost use Rattle.tracer_lines.specs.Line.{is_name_at, ValuesEnd, LineRead};

use crate::bytes::{Mark, is_capital, name_end, stands, value_end};
use crate::limits::MessageLimits;

/// A line in form: where its name ends, and where the next line begins. Its values begin behind the equals sign, which
/// ends the name.
#[derive(Clone, Copy)]
pub struct Line {
    pub name: usize,
    pub next: usize,
}

/// Whether the bytes of a name, which are all of its kind, are as many as they may be and begin with a letter.
fn is_name(message: &[u8], from: usize, to: usize) -> bool
    requires { (from ≤ to) × (to ≤ length message.now) }
    ensures { result ≡ is_name_at message.now from to }
{
    from != to && to - from <= MessageLimits::NAME && is_capital(message[from])
}

/// Where the one or two values end that begin at `from`, if they are in form.
pub fn values_end(message: &[u8], from: usize) -> Option<usize>
    requires { from ≤ length message.now }
    ensures { ValuesEnd message.now from result }
{
    let first = value_end(message, from);
    if MessageLimits::VALUE < first - from {
        return None;
    }
    if !stands(message, first, Mark::SEMICOLON) {
        return Some(first);
    }
    let second = value_end(message, first + 1);
    if MessageLimits::VALUE < second - (first + 1) {
        return None;
    }
    Some(second)
}

/// The line that begins at `from`, if it is in form.
pub fn line_at(message: &[u8], from: usize) -> Option<Line>
    requires { from ≤ length message.now }
    ensures { LineRead message.now from result }
{
    let name = name_end(message, from);
    if !is_name(message, from, name) {
        return None;
    }
    if !stands(message, name, Mark::EQUALS) {
        return None;
    }
    let end = values_end(message, name + 1)?;
    if !stands(message, end, Mark::CARRIAGE_RETURN) {
        return None;
    }
    if !stands(message, end + 1, Mark::LINE_FEED) {
        return None;
    }
    Some(Line {
        name,
        next: end + 2,
    })
}
