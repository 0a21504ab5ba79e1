//! All lines of a message, and where the values of the seven names begin.
ghost use Rattle.std.specs.Prelude.{◌≡◌, ◌<◌, replicate, None, IfSome};
ghost use Rattle.tracer_lines.specs.Places.{is_second, noted, ReadsLines};

use crate::label::label_at;
use crate::line::line_at;

/// By label: where the values of its line begin, if it has a line. 0 is no label, and its entry says nothing.
pub type Places = [Option<usize>; 8];

/// Whether a line's label, if its name has one, has a line already.
fn is_second(label: Option<usize>, places: &Places) -> bool
    requires { IfSome label (λ label. label < 8) }
    ensures { result ≡ is_second label places.now }
{
    label.is_some_and(|label| places[label].is_some())
}

/// Notes where the values of a line begin, if its name has a label.
fn note(places: &mut Places, label: Option<usize>, begin: usize)
    requires { IfSome label (λ label. label < 8) }
    ensures { places.new ≡ noted label begin places.old }
{
    if let Some(label) = label {
        places[label] = Some(begin);
    }
}

/// Whether all lines are in form and none of the seven names has two; then the places of their values are noted.
pub fn read_lines(message: &[u8], places: &mut Places) -> bool
    requires { places.old ≡ replicate 8 None }
    ensures { ReadsLines message.now places.new result }
{
    let mut at = 0;
    while at < message.len() {
        let Some(line) = line_at(message, at) else {
            return false;
        };
        let label = label_at(message, at, line.name);
        if is_second(label, places) {
            return false;
        }
        note(places, label, line.name + 1);
        at = line.next;
    }
    true
}
