//! The fields of a part of an area, one after another.
ghost use Rattle.std.specs.Prelude.{◌≡◌};

use areas::area::field_end;
use areas::span::Span;

/// The fields from `at` to `end` that are still to come.
#[derive(Drop)]
pub struct Fields<'a> {
    area: &'a [u8],
    at: usize,
    end: usize,
}

/// The fields that stand in the part.
pub fn fields_in<'a>(area: &'a [u8], part: Span) -> Fields<'a>
    ensures lent { result.area.now ≡ area.now }
    ensures begun { result.at ≡ part.from }
    ensures bounded { result.end ≡ part.to }
{
    Fields {
        area,
        at: part.from,
        end: part.to,
    }
}

impl<'a> Iterator for Fields<'a> {
    ghost use Rattle.format.specs.Fields.{FieldsLeft, Gives, fields_most};

    type Item = Span;

    ghost can_next = { FieldsLeft };

    ghost next_gives = { Gives };

    ghost remaining = { fields_most };

    fn next(&mut self) -> Option<Span> {
        let from = self.at;
        if from == self.end {
            return None;
        }
        self.at = field_end(self.area, from);
        Some(Span { from, to: self.at })
    }
}
