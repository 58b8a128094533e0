//! Decimal, hexadecimal and binary numbers with their suffixes.
ghost use Rattle.std.specs.Prelude.{◌≡◌, ◌≤◌, ◌||◌, length, option_map};
ghost use Rattle.std.specs.List.{prefix_len, count_by, list_all, list_any};
ghost use Rattle.gang_model.specs.Source.Spelling as spelling;
ghost use Rattle.ispc_lexer.specs.Numbers as spec;

use crate::letters::is_digit;
use crate::token::Number;

#[derive(Clone, Copy, Debug, PartialEq, Eq, Drop)]
enum Radix {
    Decimal,
    Hexadecimal,
    Binary,
}

fn radix_of(text: &[u8]) -> Radix
    ensures value { spec.radix_view result ≡ spec.radix_of text.now }
    ensures within { spec.prefix_size (spec.radix_view result) ≤ length text.now }
{
    if text.starts_with(b"0x") || text.starts_with(b"0X") {
        Radix::Hexadecimal
    } else if text.starts_with(b"0b") || text.starts_with(b"0B") {
        Radix::Binary
    } else {
        Radix::Decimal
    }
}

fn prefix_size(radix: Radix) -> usize
    ensures { result ≡ spec.prefix_size (spec.radix_view radix) }
{
    match radix {
        Radix::Decimal => 0,
        Radix::Hexadecimal | Radix::Binary => 2,
    }
}

fn base(radix: Radix) -> u64
    ensures { result ≡ spelling.base (spec.radix_view radix) }
{
    match radix {
        Radix::Decimal => 10,
        Radix::Hexadecimal => 16,
        Radix::Binary => 2,
    }
}

fn is_small_digit(byte: u8) -> bool
    ensures { result ≡ spelling.is_small_digit byte }
{
    matches!(byte, b'a'..=b'f')
}

fn is_large_digit(byte: u8) -> bool
    ensures { result ≡ spelling.is_large_digit byte }
{
    matches!(byte, b'A'..=b'F')
}

fn is_digit_in(radix: Radix, byte: u8) -> bool
    ensures { result ≡ spelling.is_digit_in (spec.radix_view radix) byte }
{
    match radix {
        Radix::Decimal => is_digit(byte),
        Radix::Hexadecimal => is_digit(byte) || is_small_digit(byte) || is_large_digit(byte),
        Radix::Binary => matches!(byte, b'0' | b'1'),
    }
}

fn digit_value(byte: u8) -> u8
    ensures { result ≡ spelling.digit_value byte }
{
    if is_digit(byte) {
        byte - b'0'
    } else if is_small_digit(byte) {
        byte - b'a' + 10
    } else if is_large_digit(byte) {
        byte - b'A' + 10
    } else {
        0
    }
}

fn digits_len(radix: Radix, bytes: &[u8]) -> usize
    ensures run { result ≡ prefix_len (spelling.is_digit_in (spec.radix_view radix)) bytes.now }
    ensures within { result ≤ length bytes.now }
{
    bytes
        .iter()
        .take_while(|byte| is_digit_in(radix, **byte))
        .count()
}

/// The digits' value, if it has 64 bits.
fn digits_value(radix: Radix, digits: &[u8]) -> Option<u64>
    ensures { result ≡ spec.fitting (spelling.value_in (spec.radix_view radix) digits.now) }
{
    let base = base(radix);
    let mut value = 0u64;
    for digit in digits {
        let shifted = value.checked_mul(base)?;
        value = shifted.checked_add(u64::from(digit_value(*digit)))?;
    }
    Some(value)
}

/// Whether these are several decimal digits that begin with 0.
fn has_leading_zero(radix: Radix, digits: &[u8]) -> bool
    ensures { result ≡ spec.has_leading_zero (spec.radix_view radix) digits.now }
{
    match radix {
        Radix::Decimal => digits.len() > 1 && digits[0] == b'0',
        Radix::Hexadecimal | Radix::Binary => false,
    }
}

fn is_u(byte: u8) -> bool
    ensures { result ≡ spelling.is_u byte }
{
    matches!(byte, b'u' | b'U')
}

fn is_l(byte: u8) -> bool
    ensures { result ≡ spelling.is_l byte }
{
    matches!(byte, b'l' | b'L')
}

fn count_u(text: &[u8]) -> usize
    ensures { result ≡ count_by spelling.is_u text.now }
{
    text.iter().filter(|byte| is_u(**byte)).count()
}

fn count_l(text: &[u8]) -> usize
    ensures { result ≡ count_by spelling.is_l text.now }
{
    text.iter().filter(|byte| is_l(**byte)).count()
}

fn has_suffix_letters(text: &[u8]) -> bool
    ensures { result ≡ list_all (λ b. spelling.is_u b || spelling.is_l b) text.now }
{
    text.iter().all(|byte| is_u(*byte) || is_l(*byte))
}

fn has_u(text: &[u8]) -> bool
    ensures { result ≡ list_any spelling.is_u text.now }
{
    text.iter().any(|byte| is_u(*byte))
}

fn has_l(text: &[u8]) -> bool
    ensures { result ≡ list_any spelling.is_l text.now }
{
    text.iter().any(|byte| is_l(*byte))
}

fn is_suffix(text: &[u8]) -> bool
    ensures { result ≡ spec.is_suffix text.now }
{
    has_suffix_letters(text) && count_u(text) <= 1 && count_l(text) <= 2
}

#[tactic(auto, unfolding(crate::specs::Numbers::number_in))]
fn number_in(radix: Radix, digits: &[u8], suffix: &[u8]) -> Option<Number>
    ensures { option_map spec.number_view result ≡ spec.number_in (spec.radix_view radix) digits.now suffix.now }
{
    if digits.is_empty() || has_leading_zero(radix, digits) || !is_suffix(suffix) {
        return None;
    }
    let value = digits_value(radix, digits)?;
    Some(Number {
        value,
        is_unsigned: has_u(suffix),
        is_long: has_l(suffix),
    })
}

/// The number that the whole text is, if it is one.
#[tactic(auto, unfolding(crate::specs::Numbers::number_of))]
pub fn number_of(text: &[u8]) -> Option<Number>
    ensures { option_map spec.number_view result ≡ spec.number_of text.now }
{
    let radix = radix_of(text);
    let body = &text[prefix_size(radix)..];
    let (digits, suffix) = body.split_at(digits_len(radix, body));
    number_in(radix, digits, suffix)
}
