//! The labels of a tree. How many bytes a label takes, where they stand, and what stands before its trees is known here
//! alone.
ghost use Rattle.std.specs.Prelude.{◌≡◌, [], ◌∷◌, ◌+◌, ◌≤◌, ◌<◌, length, Ok};
ghost use Rattle.spec_trees.specs.Limits.{label_max, work_min};
ghost use Rattle.areas.specs.Area.{Wrote};
ghost use Rattle.spec_trees.specs.Bytes.{label_heads};
ghost use Rattle.format.specs.Labels.{label_at, trees_at};
ghost use Rattle.format.specs.Stand.{labels_bytes, entry_of, Holds, Finds, Behind, Headed};

use areas::area::{TooLarge, field_end, put_head};
use areas::number::wide;
use areas::span::Span;

/// The tag of a label's field, which tells how many bytes stand before the label's trees: the field's head, the label,
/// the head of its array.
pub const TAG: u8 = 7;

/// The label of the entry at `at`. Every label is read here, so that a label may one day take two bytes.
pub fn label_at(area: &[u8], at: usize) -> u16
    requires { at + 4 ≤ length area.now }
    ensures { result ≡ label_at area.now at }
{
    area[at + 3] as u16
}

/// Where the trees begin of the entry at `at`: as far behind it as its tag says.
pub fn trees_at(area: &[u8], at: usize) -> usize
    requires { at < length area.now }
    ensures { result ≡ trees_at area.now at }
{
    at + wide(area[at])
}

/// How many bytes stand before the trees of a label.
pub fn heads(label: u16) -> usize
    ensures { result ≡ label_heads label }
{
    TAG as usize
}

/// Finds a label among the labels that stand at a place: where the trees of its array stand. The contract also says what stands before and behind its
/// entry, which a writer may keep.
pub fn find(area: &[u8], labels: Span, label: u16) -> Option<Span>
    requires { Holds labels_bytes area.now labels.from labels.to }
    ensures { Finds area.now labels label result }
{
    let end = labels.to;
    let mut at = labels.from;
    while at != end {
        let m = field_end(area, at);
        if label_at(area, at) == label {
            let from = at + heads(label);
            return Some(Span { from, to: m });
        }
        at = m;
    }
    None
}

/// Stores a label at `at`. Every label is written here, so that a label may one day take two bytes.
fn put_label(work: &mut [u8], at: usize, label: u16)
    requires { (at < length work.old) × (label ≤ label_max) }
    ensures { Wrote work.old work.new at (at + 1) (label ∷ []) (Ok (at + 1)) }
{
    work[at] = label as u8;
}

/// Stores, before a content that was written behind the room for them, the heads of the label whose array it is.
pub fn entry(
    work: &mut [u8],
    at: usize,
    label: u16,
    written: Result<usize, TooLarge>,
) -> Result<usize, TooLarge>
    requires { Behind work.old (at + label_heads label) written × (label ≤ label_max) × (length work.old ≤ work_min) }
    ensures { Headed (entry_of label) (label_heads label) work.old work.new at written result }
{
    let end = written?;
    put_head(work, at + 4, 1, end);
    put_label(work, at + 3, label);
    put_head(work, at, TAG, end);
    Ok(end)
}
