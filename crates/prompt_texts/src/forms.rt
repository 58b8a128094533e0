//! Values in the digits that people ask for.
ghost use Rattle.std.specs.Prelude.{◌≡◌, ◌≤◌, ◌<◌, ◌++◌, ◌∷◌, ◌%◌, ◌^◌, [], false, codes, drop, decimal};
ghost use Rattle.std.specs.Fmt as fmt;
ghost use Rattle.gang_types.specs.Values.{converted, width};
ghost use Rattle.gang_model.specs.Texts.Text.{word_text};
ghost use Rattle.value_digits.specs.Words as spec;
ghost use Rattle.prompt_texts.specs.Shown.{Puts};

use crate::page::Page;
use debug_traits::AnswerWriter;
use gang_types::{IntType, convert, value};
use value_digits::{Digits, bits_of, byte_type, is_printed, letter_of};

/// The most digits of a number: those of 64 bits to the base 2.
const MOST: usize = 64;

/// Writes a word.
pub(crate) fn put_form<O: AnswerWriter + Drop>(
    digits: Digits,
    value_type: IntType,
    word: u64,
    page: &mut Page<O>,
)
    ensures { Puts (spec.form_text digits value_type word) page.old.has_failed page.new.has_failed (O.written page.old.writer) (O.written page.new.writer) }
{
    match digits {
        Digits::Decimal => put_decimal(value_type, word, page),
        Digits::Unsigned => page.put_number(bits_of(value_type, word) as i128),
        Digits::Hexadecimal => put_hexadecimal(bits_of(value_type, word), page),
        Digits::Octal => put_octal(bits_of(value_type, word), page),
        Digits::Binary => put_digits(2, bits_of(value_type, word), page),
        Digits::Character => put_byte(value_type, word, page),
    }
}

/// Writes the value of a word.
fn put_decimal<O: AnswerWriter + Drop>(value_type: IntType, word: u64, page: &mut Page<O>)
    ensures { Puts (word_text value_type word) page.old.has_failed page.new.has_failed (O.written page.old.writer) (O.written page.new.writer) }
{
    if value_type == IntType::Bool {
        page.put(if word == 0 { b"false" } else { b"true" });
    } else {
        page.put_number(value(value_type, word));
    }
}

/// Writes hexadecimal digits behind `0x`.
fn put_hexadecimal<O: AnswerWriter + Drop>(bits: u64, page: &mut Page<O>)
    ensures { Puts (codes "0x" ++ fmt.digits 16 false bits) page.old.has_failed page.new.has_failed (O.written page.old.writer) (O.written page.new.writer) }
{
    page.put(b"0x");
    put_digits(16, bits, page);
}

/// Writes octal digits behind a 0, or this alone.
fn put_octal<O: AnswerWriter + Drop>(bits: u64, page: &mut Page<O>)
    ensures { Puts (spec.octal bits) page.old.has_failed page.new.has_failed (O.written page.old.writer) (O.written page.new.writer) }
{
    page.put(b"0");
    if bits != 0 {
        put_digits(8, bits, page);
    }
}

/// Writes the digits of a number.
fn put_digits<O: AnswerWriter + Drop>(base: u64, number: u64, page: &mut Page<O>)
    requires low { 2 ≤ base }
    requires high { base ≤ 16 }
    ensures { Puts (fmt.digits base false number) page.old.has_failed page.new.has_failed (O.written page.old.writer) (O.written page.new.writer) }
{
    let mut text = [0u8; MOST];
    let first = spell(base, number, &mut text);
    page.put(&text[first..]);
}

/// Writes the digits of a number at the end of a text, and says where they begin.
fn spell(base: u64, number: u64, text: &mut [u8; MOST]) -> usize
    requires low { 2 ≤ base }
    requires high { base ≤ 16 }
    ensures bound { result ≤ 64 }
    ensures digits { drop result text.new ≡ fmt.digits base false number }
{
    let mut first = MOST;
    let mut rest = number;
    while first > 0 {
        first -= 1;
        text[first] = digit(rest % base);
        rest /= base;
        if rest == 0 {
            break;
        }
    }
    first
}

/// A digit.
fn digit(value: u64) -> u8
    requires { value < 16 }
    ensures { result ≡ fmt.digit_glyph false value }
{
    let low = value as u8;
    if low < 10 {
        b'0' + low
    } else {
        b'a' + (low - 10)
    }
}

/// Writes what a cast to 8 bits gives, and the character that this is.
fn put_byte<O: AnswerWriter + Drop>(value_type: IntType, word: u64, page: &mut Page<O>)
    ensures { Puts (spec.quoted (spec.byte_type value_type) (converted value_type (spec.byte_type value_type) word)) page.old.has_failed page.new.has_failed (O.written page.old.writer) (O.written page.new.writer) }
{
    let byte_type = byte_type(value_type);
    put_quoted(byte_type, convert(value_type, byte_type, word), page);
}

/// Writes the value of a word of 8 bits, and the character that it is.
fn put_quoted<O: AnswerWriter + Drop>(value_type: IntType, word: u64, page: &mut Page<O>)
    requires { width value_type ≡ 8 }
    ensures { Puts (spec.quoted value_type word) page.old.has_failed page.new.has_failed (O.written page.old.writer) (O.written page.new.writer) }
{
    page.put_number(value(value_type, word));
    page.put(b" '");
    put_character(bits_of(value_type, word) as u8, page);
    page.put(b"'");
}

/// Writes a byte as C spells a character.
fn put_character<O: AnswerWriter + Drop>(byte: u8, page: &mut Page<O>)
    ensures { Puts (spec.character byte) page.old.has_failed page.new.has_failed (O.written page.old.writer) (O.written page.new.writer) }
{
    let letter = letter_of(byte);
    if letter != 0 {
        page.put(&[b'\\', letter]);
    } else if is_printed(byte) {
        page.put(&[byte]);
    } else {
        page.put(&[
            b'\\',
            b'0' + byte / 64,
            b'0' + byte / 8 % 8,
            b'0' + byte % 8,
        ]);
    }
}
