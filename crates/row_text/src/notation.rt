//! Bytes as text: each is two lower-case hexadecimal digits, and spaces and line feeds may stand between them.
//! `61*255` is a byte so many times, `(020003 030000)*338` a group of bytes so many times; in a group no other may
//! stand.
ghost use Rattle.std.specs.Prelude.{◌<◌, ◌≤◌, length, IfSome};

/// The value of a hexadecimal digit.
fn digit(character: u8) -> Option<u8> {
    match character {
        b'0'..=b'9' => Some(character - b'0'),
        b'a'..=b'f' => Some(character - b'a' + 10),
        _ => None,
    }
}

/// The decimal number that a text begins with, and what is behind it. One that does not fit counts as the largest that
/// does.
pub fn decimal(text: &[u8]) -> Option<(usize, &[u8])>
    ensures { IfSome result (λ read. length read.1.now ≤ length text.now) }
{
    let count = text.iter().take_while(|c| c.is_ascii_digit()).count();
    if count == 0 {
        return None;
    }
    let (digits, rest) = text.split_at(count);
    let value = digits.iter().fold(0usize, |value, digit| {
        value
            .saturating_mul(10)
            .saturating_add(usize::from(digit & 0x0f))
    });
    Some((value, rest))
}

/// The bytes of a text as far as they are written.
#[derive(Debug, Drop)]
struct Writing<'b> {
    bytes: &'b mut [u8],
    /// Where they end.
    end: usize,
    /// Where the last byte, or the last group, begins: what a `*` repeats.
    item: usize,
    /// Where the open group begins, if one is open.
    group: Option<usize>,
}

impl Writing<'_> {
    /// One more byte, where there is room. A group that finds none may still be taken no time: so what the bytes come to
    /// is asked at the end of the text.
    fn put(&mut self, byte: u8) {
        if let Some(place) = self.bytes.get_mut(self.end) {
            *place = byte;
            self.end += 1;
        }
    }

    /// The byte whose first digit was read.
    fn byte<'t>(&mut self, high: u8, text: &'t [u8]) -> Option<&'t [u8]>
        ensures { IfSome result (λ rest. length rest.now ≤ length text.now) }
    {
        let (low, rest) = text.split_first()?;
        let byte = digit(high)? << 4 | digit(*low)?;
        self.item = self.end;
        self.put(byte);
        Some(rest)
    }

    /// The start of a group.
    fn open(&mut self) -> Option<()> {
        if self.group.is_some() {
            return None;
        }
        self.item = self.end;
        self.group = Some(self.end);
        Some(())
    }

    /// The end of a group.
    fn close(&mut self) -> Option<()> {
        self.item = self.group.take()?;
        Some(())
    }

    /// The bytes from one place to another, written once more.
    fn again(&mut self, from: usize, to: usize) -> Option<()> {
        for i in from..to {
            let byte = *self.bytes.get(i)?;
            self.put(byte);
        }
        Some(())
    }

    /// The number behind a `*`: what stands before it, so many times. It does not repeat another `*`.
    fn star<'t>(&mut self, text: &'t [u8]) -> Option<&'t [u8]>
        ensures { IfSome result (λ rest. length rest.now ≤ length text.now) }
    {
        let (times, rest) = decimal(text)?;
        let from = self.item;
        let to = self.end;
        if from == to {
            return None;
        }
        self.end = from;
        for _ in 0..times {
            if self.end == self.bytes.len() {
                break;
            }
            self.again(from, to)?;
        }
        self.item = self.end;
        Some(rest)
    }

    /// What begins with a character, and has `text` behind it.
    fn step<'t>(&mut self, character: u8, text: &'t [u8]) -> Option<&'t [u8]>
        ensures { IfSome result (λ rest. length rest.now ≤ length text.now) }
    {
        match character {
            b' ' | b'\n' => {}
            b'(' => self.open()?,
            b')' => self.close()?,
            b'*' => return self.star(text),
            _ => return self.byte(character, text),
        }
        Some(text)
    }

    /// The whole text.
    fn steps(&mut self, text: &[u8]) -> Option<()> {
        let mut rest = text;
        while let Some((character, behind)) = rest.split_first() {
            rest = self.step(*character, behind)?;
        }
        Some(())
    }
}

/// Writes the bytes that a text says to the beginning of a buffer: how many they are. The text has to say some from its
/// first character on, and they may not fill the buffer to its end.
pub fn write(text: &[u8], bytes: &mut [u8]) -> Option<usize>
    ensures { IfSome result (λ count. count < length bytes.new) }
{
    if let [] | [b' ' | b'\n', ..] = text {
        return None;
    }
    let room = bytes.len();
    let mut writing = Writing {
        bytes,
        end: 0,
        item: 0,
        group: None,
    };
    writing.steps(text)?;
    let end = writing.end;
    (writing.group.is_none() && end < room).then_some(end)
}
