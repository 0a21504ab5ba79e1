//! A part that goes behind a tree as it is: its root is void, and its labels come after the tree's. Their merge is
//! the tree with the part's labels behind its own, so that nothing else is copied. Most items of a project and most
//! places are such.
ghost use Rattle.spec_trees.specs.Bytes.{tree_bytes};
ghost use Rattle.format.specs.Stand.{labels_bytes};
ghost use Rattle.queries.specs.Places.{HoldsAt};
ghost use Rattle.build.specs.Build.{DepthSaid, Addable, Added};
ghost use Rattle.build.specs.Behind.{LastIs, GoesBehind};
ghost use Rattle.std.specs.Prelude.{true};

use areas::area::{TooLarge, field_end, move_down, put_head};
use areas::span::Span;
use format::depth::within_depth;
use format::labels::label_at;
use format::limits::Limits;

/// The last of the labels, or 0. Labels rise, so it is the greatest.
fn last_label(area: &[u8], labels: Span) -> u16
    requires { HoldsAt labels_bytes area.now labels }
    ensures { LastIs area.now labels result }
{
    let end = labels.to;
    let mut at = labels.from;
    let mut last: u16 = 0;
    while at != end {
        last = label_at(area, at);
        at = field_end(area, at);
    }
    last
}

/// Whether the part goes behind the tree as it is.
pub fn goes_behind(area: &[u8], built: Span, part: Span) -> bool
    requires { HoldsAt tree_bytes area.now built × HoldsAt tree_bytes area.now part }
    ensures { GoesBehind area.now built part result }
{
    let root = part.from + 3;
    if area[root] != 3 {
        return false;
    }
    let l = field_end(area, root);
    if l == part.to {
        return true;
    }
    let m = field_end(area, built.from + 3);
    let last = last_label(
        area,
        Span {
            from: m,
            to: built.to,
        },
    );
    last < label_at(area, l)
}

/// Puts the labels of the part, which goes behind the tree, behind the tree's, and answers where the merge ends. It is as
/// deep as the deeper of the two, and the part is not too deep.
pub fn append_part(work: &mut [u8], built: Span, part: Span) -> Result<usize, TooLarge>
    requires { Addable work.old built part × DepthSaid work.old part true × GoesBehind work.old built part true }
    ensures { Added work.old work.new built part result }
{
    let l = field_end(work, part.from + 3);
    let e = built.to + (part.to - l);
    if Limits::TREE < e - built.from {
        return Err(TooLarge);
    }
    if !within_depth(work, built, Limits::DEPTH) {
        return Err(TooLarge);
    }
    let labels = Span {
        from: l,
        to: part.to,
    };
    move_down(work, labels, built.to);
    put_head(work, built.from, 2, e);
    Ok(e)
}
