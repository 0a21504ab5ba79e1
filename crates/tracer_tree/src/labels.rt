//! The labels of a message's tree, in the order of their numbers, whatever the order of the lines.
ghost use Rattle.tracer_tree.specs.Labels.{LabelReady, WroteLabel, LabelsReady, WroteLabels};

use crate::values::write_values;
use areas::area::TooLarge;
use areas::span::Span;
use format::labels::{entry, heads};
use tracer_lines::places::Places;

/// The label with the trees of the values that begin at `from`; nothing, if it has no line.
fn write_label(
    out: &mut [u8],
    message: &[u8],
    from: Option<usize>,
    label: u16,
    room: Span,
) -> Result<usize, TooLarge>
    requires { LabelReady message.now from label out.old room }
    ensures { WroteLabel message.now from label out.old out.new room result }
{
    let at = room.from;
    let to = room.to;
    let Some(from) = from else {
        return Ok(at);
    };
    let begin = heads(label);
    if to - at < begin {
        return Err(TooLarge);
    }
    let written = write_values(
        out,
        message,
        from,
        label,
        Span {
            from: at + begin,
            to,
        },
    );
    entry(out, at, label, written)
}

/// All labels that have a line.
pub fn write_labels(
    out: &mut [u8],
    message: &[u8],
    places: &Places,
    room: Span,
) -> Result<usize, TooLarge>
    requires { LabelsReady message.now places.now out.old room }
    ensures { WroteLabels message.now places.now out.old out.new room result }
{
    let to = room.to;
    let mut at = room.from;
    for label in 1..8 {
        let end = write_label(
            out,
            message,
            places[label],
            label as u16,
            Span { from: at, to },
        )?;
        at = end;
    }
    Ok(at)
}
