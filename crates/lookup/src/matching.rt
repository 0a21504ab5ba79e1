//! The test of a lookup: which joined trees match a tree. It is one definition, `matches`, and one function.
//! Of `<'a>`: see crate `paths`'s `equality`.
ghost use Rattle.spec_trees.specs.Bytes.{tree_bytes};
ghost use Rattle.paths.specs.Walk.{Walk};
ghost use Rattle.lookup.specs.Matching.{JoinsIs};

use areas::span::Span;
use paths::equality::same_keys;

/// Whether the joined tree matches the tree: what the path `theirs` gives of the joined tree equals what the path `own`
/// gives of the other. Absent equals absent.
pub fn joins<'a>(
    query: &'a [u8],
    own: Span,
    theirs: Span,
    area: &'a [u8],
    tree: Span,
    joined: &'a [u8],
    other: Span,
) -> bool
    requires { Walk tree_bytes query.now own 0 area.now tree × Walk tree_bytes query.now theirs 0 joined.now other }
    ensures { JoinsIs query.now own theirs area.now tree joined.now other result }
{
    same_keys(query, theirs, joined, other, own, area, tree)
}
