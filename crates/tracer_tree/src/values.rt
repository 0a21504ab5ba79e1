//! The trees of a line's values.
ghost use Rattle.std.specs.Prelude.{◌≤◌, length};
ghost use Rattle.spec_trees.specs.Limits.{work_min};
ghost use Rattle.spec_trees.specs.Bytes.{tree_bytes};
ghost use Rattle.areas.specs.Area.{Wrote};
ghost use Rattle.spec_tracer.specs.Values.{value_tree};
ghost use Rattle.tracer_tree.specs.Values.{WroteValues};

use crate::number::read_number;
use areas::area::TooLarge;
use areas::span::Span;
use bare::integer::put_integer;
use bare::root::put_root;
use tracer_lines::bytes::{Mark, stands, value_end};

/// The label of JOB, under which a number is text.
const JOB: u16 = 1;

/// The tags of void and text roots.
const VOID: u8 = 3;

const TEXT: u8 = 6;

/// The tree of one value under this label.
fn write_value(out: &mut [u8], value: &[u8], label: u16, room: Span) -> Result<usize, TooLarge>
    requires { (room.from ≤ room.to) × (room.to ≤ length out.old) × (length out.old ≤ work_min) }
    ensures { Wrote out.old out.new room.from room.to (tree_bytes (value_tree label value.now)) result }
{
    if value.len() == 0 {
        return put_root(out, VOID, value, room);
    }
    if label == JOB {
        return put_root(out, TEXT, value, room);
    }
    let Some(bits) = read_number(value) else {
        return put_root(out, TEXT, value, room);
    };
    put_integer(out, bits, room)
}

/// The trees of the one or two values that begin at `from`.
pub fn write_values(
    out: &mut [u8],
    message: &[u8],
    from: usize,
    label: u16,
    room: Span,
) -> Result<usize, TooLarge>
    requires { (from ≤ length message.now) × (room.from ≤ room.to) × (room.to ≤ length out.old) × (length out.old ≤ work_min) }
    ensures { WroteValues message.now from label out.old out.new room result }
{
    let first = value_end(message, from);
    let written = write_value(out, &message[from..first], label, room);
    if !stands(message, first, Mark::SEMICOLON) {
        return written;
    }
    let at = written?;
    let begin = first + 1;
    let second = value_end(message, begin);
    write_value(
        out,
        &message[begin..second],
        label,
        Span {
            from: at,
            to: room.to,
        },
    )
}
