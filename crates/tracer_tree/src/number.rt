//! A value that is a number, in hundredths.
ghost use Rattle.std.specs.Prelude.{◌≡◌, [], ◌∷◌, true, ◌≤◌, length, drop, pos, neg_ℤ};
ghost use Rattle.spec_trees.specs.Bytes.{pattern};
ghost use Rattle.spec_tracer.specs.Message.{is_digit};
ghost use Rattle.spec_tracer.specs.Values.{digit, decimal, parts, fraction, amount, hundredths};
ghost use Rattle.tracer_tree.specs.Number.{Digits, amount_of, bits_of};

use tracer_lines::bytes::{digits_end, is_digit, stands};
use tracer_lines::limits::MessageLimits;

/// The bytes of a number that are no digits.
#[derive(Clone, Copy)]
pub struct Sign;

impl Sign {
    pub const MINUS: u8 = b'-';

    pub const POINT: u8 = b'.';
}

/// What a digit says.
fn digit_value(byte: u8) -> u64
    requires { is_digit byte ≡ true }
    ensures { (result ≡ digit byte) × (result ≤ 9) }
{
    u64::from(byte - b'0')
}

/// The number that these digits write.
fn whole(digits: &[u8]) -> u64
    requires { Digits digits.now }
    ensures { result ≡ decimal 0 digits.now }
{
    let mut number = 0;
    for digit in digits {
        number = number * 10 + digit_value(*digit);
    }
    number
}

/// Tenths, which count ten, in hundredths.
fn tenths(first: u8) -> Option<u64>
    ensures { result ≡ amount_of (parts (first ∷ [])) }
{
    if !is_digit(first) {
        return None;
    }
    Some(digit_value(first) * 10)
}

/// Tenths and hundredths, in hundredths.
fn both_digits(first: u8, second: u8) -> Option<u64>
    ensures { result ≡ amount_of (parts (first ∷ second ∷ [])) }
{
    if !is_digit(first) || !is_digit(second) {
        return None;
    }
    Some(digit_value(first) * 10 + digit_value(second))
}

/// What stands behind the whole digits, in hundredths: nothing, or a point and 1 or 2 digits.
fn fraction(rest: &[u8]) -> Option<u64>
    ensures { result ≡ amount_of (fraction rest.now) }
{
    match rest {
        [] => Some(0),
        [Sign::POINT, first] => tenths(*first),
        [Sign::POINT, first, second] => both_digits(*first, *second),
        _ => None,
    }
}

/// The hundredths that the bytes from `from` on write without a sign.
fn amount_at(value: &[u8], from: usize) -> Option<u64>
    requires { from ≤ length value.now }
    ensures { result ≡ amount_of (amount (drop from value.now)) }
{
    let end = digits_end(value, from);
    let count = end - from;
    if count == 0 || MessageLimits::WHOLE < count {
        return None;
    }
    let hundredths = fraction(&value[end..])?;
    Some(whole(&value[from..end]) * 100 + hundredths)
}

/// The bits of an amount with a minus: -0 is 0.
fn negative(amount: u64) -> u64
    ensures { result ≡ pattern (neg_ℤ (pos amount)) }
{
    amount.wrapping_neg()
}

/// The bits of the integer that a value is, if it is a number.
pub fn read_number(value: &[u8]) -> Option<u64>
    ensures { result ≡ bits_of (hundredths value.now) }
{
    if stands(value, 0, Sign::MINUS) {
        return amount_at(value, 1).map(negative);
    }
    amount_at(value, 0)
}
