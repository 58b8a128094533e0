//! The numbers that digits spell.
ghost use Rattle.std.specs.Prelude.{◌≡◌, ◌^◌, min, option_map};
ghost use Rattle.gang_model.specs.Texts.Spellings as spelling;
ghost use Rattle.debug_words.specs.Digits as spec;

use crate::splitting::is_digit;

/// The least number that 64 bits do not hold.
const PAST_WORDS: u128 = 1 << 64;

/// The base of a number.
#[derive(Clone, Copy, Debug, PartialEq, Eq, Drop)]
pub enum Radix {
    Decimal,
    /// With small and large letters.
    Hexadecimal,
}

fn base(radix: Radix) -> u128
    ensures { result ≡ spec.base radix }
{
    match radix {
        Radix::Decimal => 10,
        Radix::Hexadecimal => 16,
    }
}

fn is_hexadecimal(byte: u8) -> bool
    ensures { result ≡ spelling.is_hexadecimal byte }
{
    is_digit(byte) || matches!(byte, b'a'..=b'f' | b'A'..=b'F')
}

fn is_digit_in(radix: Radix, byte: u8) -> bool
    ensures { result ≡ spec.is_digit_in radix byte }
{
    match radix {
        Radix::Decimal => is_digit(byte),
        Radix::Hexadecimal => is_hexadecimal(byte),
    }
}

fn digit_value(byte: u8) -> u8
    ensures { result ≡ spelling.digit_value byte }
{
    match byte {
        b'0'..=b'9' => byte - b'0',
        b'a'..=b'f' => byte - b'a' + 10,
        _ => byte.saturating_sub(b'A' - 10),
    }
}

fn are_digits(radix: Radix, bytes: &[u8]) -> bool
    ensures { result ≡ spelling.all_are (spec.is_digit_in radix) bytes.now }
{
    bytes.iter().all(|byte| is_digit_in(radix, *byte))
}

/// The number, or 2^64 if it is more.
fn limited(number: u128) -> u128
    ensures { result ≡ min number (2 ^ 64) }
{
    number.min(PAST_WORDS)
}

/// The digits' value, or 2^64 if it is more.
fn digits_value(radix: Radix, digits: &[u8]) -> u128
    ensures { result ≡ min (2 ^ 64) (spelling.number_after (spec.base radix) 0 digits.now) }
{
    let base = base(radix);
    let mut value = 0u128;
    for digit in digits {
        value = limited(value * base + u128::from(digit_value(*digit)));
    }
    value
}

/// The number that the whole word spells, or 2^64 if it is more; none where the word is empty or has another byte than a
/// digit.
pub fn digits_number(radix: Radix, word: &[u8]) -> Option<u128>
    ensures { result ≡ option_map (min (2 ^ 64)) (spelling.digits_number (spec.is_digit_in radix) (spec.base radix) word.now) }
{
    if word.is_empty() || !are_digits(radix, word) {
        None
    } else {
        Some(digits_value(radix, word))
    }
}
