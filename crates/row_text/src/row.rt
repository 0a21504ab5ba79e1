//! The reading of a row, step by step.
use crate::lines::{from_line, is_telling, split_before, split_line};
use crate::notation::{decimal, write};

/// What is left to be read of a row. Whatever is not as it should be reads as nothing; a word or a number that is not
/// there leaves the row as it is.
#[derive(Clone, Copy, Debug)]
pub struct Row<'t> {
    rest: &'t [u8],
}

impl<'t> Row<'t> {
    /// A row, behind the line that begins it.
    pub fn new(text: &'t [u8]) -> Option<Row<'t>> {
        if !text.starts_with(b"row ") {
            return None;
        }
        let (_, rest) = split_line(text);
        Some(Row { rest })
    }

    /// The word with which the next line that says something begins.
    pub fn word(&mut self, wanted: &[u8]) -> Option<()> {
        self.rest = from_line(self.rest, is_telling).strip_prefix(wanted)?;
        Some(())
    }

    /// A space and a decimal number.
    pub fn number(&mut self) -> Option<usize> {
        let (value, rest) = decimal(self.rest.strip_prefix(b" ")?)?;
        self.rest = rest;
        Some(value)
    }

    /// The end of a line, or of the row.
    pub fn line_feed(&mut self) -> Option<()> {
        if let Some((first, rest)) = self.rest.split_first() {
            if *first != b'\n' {
                return None;
            }
            self.rest = rest;
        }
        Some(())
    }

    /// A word and bytes, up to the next line that does not begin with a space. The bytes go to a buffer: they come back
    /// with what is left of it.
    pub fn argument<'b>(
        &mut self,
        wanted: &[u8],
        bytes: &'b mut [u8],
    ) -> Option<(&'b [u8], &'b mut [u8])> {
        self.word(wanted)?;
        let (text, rest) = split_before(self.rest, |line| !line.starts_with(b" "));
        self.rest = rest;
        let count = write(text, bytes)?;
        let (written, free) = bytes.split_at_mut(count);
        Some((written, free))
    }

    /// The end of the row: no line more says something.
    pub fn end(self) -> Option<()> {
        from_line(self.rest, is_telling).is_empty().then_some(())
    }
}
