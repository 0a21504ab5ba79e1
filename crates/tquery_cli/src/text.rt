//! The answer as text: a result in lower-case hexadecimal, or "refused " and a number. Each ends with a line feed.
ghost use Rattle.std.specs.Prelude.{◌≡◌, ◌++◌, ◌+◌, ◌*◌, ◌≤◌, ◌<◌, length, take};
ghost use Rattle.spec_run.specs.Program.{digit, hex, decimal, refused_text};
ghost use Rattle.tquery_cli.specs.Text.{Begins};

use areas::area::emit;

/// The character of a hexadecimal digit.
fn hex_digit(value: u8) -> u8
    requires { value < 16 }
    ensures { result ≡ digit value }
{
    if value < 10 {
        return 48 + value;
    }
    87 + value
}

/// Writes bytes in hexadecimal, and a line feed, at the start of `text`: where the text ends.
pub fn write_hex(text: &mut [u8], bytes: &[u8]) -> usize
    requires { 2 * length bytes.now + 1 ≤ length text.old }
    ensures { Begins text.new (hex bytes.now) result }
{
    for (i, byte) in bytes.iter().enumerate() {
        text[2 * i] = hex_digit(byte / 16);
        text[2 * i + 1] = hex_digit(byte % 16);
    }
    let end = 2 * bytes.len();
    text[end] = b'\n';
    end + 1
}

/// Writes a number below 100 in decimal at `at`: where it ends.
fn write_decimal(text: &mut [u8], at: usize, number: u64) -> usize
    requires { (at + 2 ≤ length text.old) × (number < 100) }
    ensures { Begins text.new (take at text.old ++ decimal number) result × (result ≤ at + 2) }
{
    if number < 10 {
        text[at] = (48 + number) as u8;
        return at + 1;
    }
    text[at] = (48 + number / 10) as u8;
    text[at + 1] = (48 + number % 10) as u8;
    at + 2
}

/// Writes "refused ", the number of a refusal and a line feed at the start of `text`: where the text ends.
pub fn write_refused(text: &mut [u8], number: u64) -> usize
    requires { (11 ≤ length text.old) × (number < 100) }
    ensures { Begins text.new (refused_text number) result }
{
    let _ = emit(text, 0, b"refused ");
    let e = write_decimal(text, 8, number);
    text[e] = b'\n';
    e + 1
}
