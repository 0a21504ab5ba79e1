//! Paths: every step is counted and read here, so that wider labels and steps change one place. A path stands by its
//! whole field, so that its tag can be seen.
ghost use Rattle.std.specs.Prelude.{◌≡◌, ◌+◌, ◌≤◌, ◌<◌, length};
ghost use Rattle.queries.specs.Steps.{count_in, step_in, step_count, step_at, StepInside};

use areas::span::Span;

/// How many steps a path's content has that stands from `from` to `to`.
pub fn count_in(from: usize, to: usize) -> usize
    requires { from ≤ to }
    ensures { result ≡ count_in from to }
{
    to - from
}

/// The label of step i of a path's content that begins at `from`.
pub fn step_in(query: &[u8], from: usize, i: usize) -> u16
    requires { from + i < length query.now }
    ensures { result ≡ step_in query.now from i }
{
    query[from + i] as u16
}

/// How many steps the path has.
pub fn steps(query: &[u8], path: Span) -> usize
    requires { (path.from + 3 ≤ path.to) × (path.to ≤ length query.now) }
    ensures { result ≡ step_count query.now path }
{
    count_in(path.from + 3, path.to)
}

/// The label of step i of the path.
pub fn step_at(query: &[u8], path: Span, i: usize) -> u16
    requires { StepInside query.now path i }
    ensures { result ≡ step_at query.now path i }
{
    step_in(query, path.from + 3, i)
}
