//! Kinds of bytes, and where a piece of bytes of one kind ends.
ghost use Rattle.std.specs.Prelude.{◌≡◌, ◌≤◌, ℕ, Bool, length};
ghost use Rattle.spec_tracer.specs.Message.{is_capital, is_digit, is_name_byte, is_value_byte};
ghost use Rattle.tracer_lines.specs.Piece.{Tells, piece_end, stands_at};

/// The bytes that part a line.
#[derive(Clone, Copy)]
pub struct Mark;

impl Mark {
    pub const EQUALS: u8 = b'=';

    pub const SEMICOLON: u8 = b';';

    pub const CARRIAGE_RETURN: u8 = b'\r';

    pub const LINE_FEED: u8 = b'\n';
}

/// Whether a byte is a capital letter.
pub fn is_capital(byte: u8) -> bool
    ensures { result ≡ is_capital byte }
{
    byte.is_ascii_uppercase()
}

/// Whether a byte is a digit.
pub fn is_digit(byte: u8) -> bool
    ensures { result ≡ is_digit byte }
{
    byte.is_ascii_digit()
}

/// Whether a byte may stand in a name.
fn is_name_byte(byte: u8) -> bool
    ensures { result ≡ is_name_byte byte }
{
    is_capital(byte) || is_digit(byte)
}

/// Whether a byte may stand in a value: it is printable, and no semicolon.
fn is_value_byte(byte: u8) -> bool
    ensures { result ≡ is_value_byte byte }
{
    byte != Mark::SEMICOLON && matches!(byte, b' '..=b'~')
}

/// Where the bytes of one kind end that begin at `from`.
fn piece_end<F: Fn(u8) -> bool>(bytes: &[u8], from: usize, is_of_kind: F) -> usize
    requires callable { F.IsAlwaysCallable is_of_kind }
    requires inside { from ≤ length bytes.now }
    ensures { (kind : ℕ → Bool) → Tells (F.post is_of_kind) kind → result ≡ piece_end kind bytes.now from }
{
    let rest = bytes[from..].iter();
    from + rest.take_while(|&&byte| is_of_kind(byte)).count()
}

/// Where the bytes of a name end that begin at `from`.
pub fn name_end(bytes: &[u8], from: usize) -> usize
    requires { from ≤ length bytes.now }
    ensures { result ≡ piece_end is_name_byte bytes.now from }
{
    piece_end(bytes, from, is_name_byte)
}

/// Where the bytes of a value end that begin at `from`.
pub fn value_end(bytes: &[u8], from: usize) -> usize
    requires { from ≤ length bytes.now }
    ensures { result ≡ piece_end is_value_byte bytes.now from }
{
    piece_end(bytes, from, is_value_byte)
}

/// Where the digits end that begin at `from`.
pub fn digits_end(bytes: &[u8], from: usize) -> usize
    requires { from ≤ length bytes.now }
    ensures { result ≡ piece_end is_digit bytes.now from }
{
    piece_end(bytes, from, is_digit)
}

/// Whether this byte stands at `at`.
pub fn stands(bytes: &[u8], at: usize, byte: u8) -> bool
    ensures { result ≡ stands_at bytes.now at byte }
{
    bytes.get(at) == Some(&byte)
}
