//! The lines of a text.
ghost use Rattle.std.specs.Prelude.{◌<◌, ◌≤◌, length};

/// Whether a text begins with a line that says something: it is neither blank nor a comment.
pub fn is_telling(text: &[u8]) -> bool {
    !matches!(text, [] | [b'\n' | b'#', ..])
}

/// The first line of a text, without its line feed, and what is behind it. A last line may have none.
pub fn split_line(text: &[u8]) -> (&[u8], &[u8])
    ensures within { length result.1.now ≤ length text.now }
    ensures further { 0 < length text.now → length result.1.now < length text.now }
{
    match text.iter().position(|byte| *byte == b'\n') {
        Some(end) => (&text[..end], &text[end + 1..]),
        None => text.split_at(text.len()),
    }
}

/// A text from the first of its lines on that begins as is wanted; nothing of it where none does.
pub fn from_line<F: Fn(&[u8]) -> bool>(text: &[u8], is_wanted: F) -> &[u8]
    requires { F.IsAlwaysCallable is_wanted }
    ensures { length result.now ≤ length text.now }
{
    let mut rest = text;
    while !rest.is_empty() && !is_wanted(rest) {
        rest = split_line(rest).1;
    }
    rest
}

/// A text up to the first line behind its first one that begins as is wanted, and from that line on.
pub fn split_before<F: Fn(&[u8]) -> bool>(text: &[u8], is_wanted: F) -> (&[u8], &[u8])
    requires { F.IsAlwaysCallable is_wanted }
    ensures { 0 < length text.now → length result.1.now < length text.now }
{
    let rest = from_line(split_line(text).1, is_wanted);
    text.split_at(text.len() - rest.len())
}
