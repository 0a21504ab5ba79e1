//! The view of a field: the slice that holds it and the bytes that it must span. Document 01: "an input is one field
//! that spans all its bytes". The two functions over the view are thin: what they do is done by a function of a slice and
//! a number, and everyone else calls `spanning`.
ghost use Rattle.std.specs.Prelude.{◌≡◌, length};
ghost use Rattle.format.specs.Head.{span_at};
ghost use Rattle.format.specs.View.{span_of};

use crate::head;
use crate::head::FieldAt;

/// A field that is to span the first `span` bytes of the slice.
#[derive(Clone, Copy)]
pub struct Field<'a> {
    pub bytes: &'a [u8],
    pub span: usize,
}

/// The head of the field that spans the first `span` bytes: the work behind the view.
fn span_head(area: &[u8], span: usize) -> Option<FieldAt>
    ensures { result ≡ span_of area.now span }
{
    if span <= area.len() {
        head::spanning_at(area, 0, span)
    } else {
        None
    }
}

/// The head of a view's field.
pub fn head_of<'a>(field: Field<'a>) -> Option<FieldAt>
    ensures { result ≡ span_of field.entry.bytes.now field.entry.span }
{
    span_head(field.bytes, field.span)
}

/// The same of a slice and a number.
pub fn view_head(area: &[u8], span: usize) -> Option<FieldAt>
    ensures { result ≡ span_of area.now span }
{
    head_of(Field { bytes: area, span })
}

/// The one field that an input is: it spans all the bytes, so that nothing trails.
pub fn spanning(area: &[u8]) -> Option<FieldAt>
    ensures { result ≡ span_at area.now 0 (length area.now) }
{
    view_head(area, area.len())
}
