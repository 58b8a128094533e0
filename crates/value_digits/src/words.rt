//! Words in the digits that people ask for.
ghost use Rattle.std.specs.Prelude.{◌≡◌, ◌<◌, ◌++◌, ◌∷◌, [], ◌^◌, IfOk, codes, false, string_bytes};
ghost use Rattle.std.specs.Fmt as fmt;
ghost use Rattle.gang_types.specs.Values.{value_of, width};
ghost use Rattle.gang_model.specs.Texts.Spellings.{is_between};
ghost use Rattle.gang_model.specs.Texts.Text as model;
ghost use Rattle.value_digits.specs.Words as spec;

use crate::digits::Digits;
use gang_types::{IntType, convert, is_signed, low_bits, value};
use std::alloc::{AllocError, Global};

/// The text of a word of a type in digits.
///
/// # Errors
///
/// Out of memory.
pub fn digits_text(
    alloc: Global,
    digits: Digits,
    value_type: IntType,
    word: u64,
) -> Result<String, AllocError>
    ensures { IfOk result (λ text. string_bytes text ≡ spec.form_text digits value_type word) }
{
    match digits {
        Digits::Decimal => decimal_text(alloc, value_type, word),
        Digits::Unsigned => unsigned_text(alloc, bits_of(value_type, word)),
        Digits::Hexadecimal => hexadecimal_text(alloc, bits_of(value_type, word)),
        Digits::Octal => octal_text(alloc, bits_of(value_type, word)),
        Digits::Binary => binary_text(alloc, bits_of(value_type, word)),
        Digits::Character => byte_text(alloc, value_type, word),
    }
}

/// The value of a word.
fn decimal_text(alloc: Global, value_type: IntType, word: u64) -> Result<String, AllocError>
    ensures { IfOk result (λ text. string_bytes text ≡ model.word_text value_type word) }
{
    if value_type == IntType::Bool {
        let name = if word == 0 { "false" } else { "true" };
        return String::from_str(alloc, name);
    }
    number_text(alloc, value_type, word)
}

/// The bits of a word, as many as its type has, as a number without a sign.
pub fn bits_of(value_type: IntType, word: u64) -> u64
    ensures { result ≡ spec.bits_of value_type word }
{
    word & low_bits(value_type)
}

/// Decimal digits.
fn unsigned_text(alloc: Global, bits: u64) -> Result<String, AllocError>
    ensures { IfOk result (λ text. string_bytes text ≡ fmt.decimal bits) }
{
    format!(in alloc; "{bits}")
}

/// Hexadecimal digits behind `0x`.
fn hexadecimal_text(alloc: Global, bits: u64) -> Result<String, AllocError>
    ensures { IfOk result (λ text. string_bytes text ≡ codes "0x" ++ fmt.digits 16 false bits) }
{
    format!(in alloc; "0x{bits:x}")
}

/// Octal digits behind a 0, or this alone.
fn octal_text(alloc: Global, bits: u64) -> Result<String, AllocError>
    ensures { IfOk result (λ text. string_bytes text ≡ spec.octal bits) }
{
    if bits == 0 {
        String::from_str(alloc, "0")
    } else {
        format!(in alloc; "0{bits:o}")
    }
}

/// Binary digits.
fn binary_text(alloc: Global, bits: u64) -> Result<String, AllocError>
    ensures { IfOk result (λ text. string_bytes text ≡ fmt.digits 2 false bits) }
{
    format!(in alloc; "{bits:b}")
}

/// What a cast to 8 bits gives, and the character that this is.
fn byte_text(alloc: Global, value_type: IntType, word: u64) -> Result<String, AllocError>
    ensures { IfOk result (λ text. string_bytes text ≡ spec.form_text Digits.Character value_type word) }
{
    let byte_type = byte_type(value_type);
    quoted_text(alloc, byte_type, convert(value_type, byte_type, word))
}

/// The type of 8 bits that has values below 0 where this one has: a character of a word is a cast to it.
pub fn byte_type(value_type: IntType) -> IntType
    ensures { result ≡ spec.byte_type value_type }
{
    if is_signed(value_type) {
        IntType::Int8
    } else {
        IntType::Uint8
    }
}

/// The value of a word of 8 bits, and the character that it is.
fn quoted_text(alloc: Global, value_type: IntType, word: u64) -> Result<String, AllocError>
    requires { width value_type ≡ 8 }
    ensures { IfOk result (λ text. string_bytes text ≡ spec.quoted value_type word) }
{
    let number = number_text(alloc, value_type, word)?;
    let number = number.as_str();
    let character = character_text(alloc, bits_of(value_type, word) as u8)?;
    let character = character.as_str();
    format!(in alloc; "{number} '{character}'")
}

/// The value of a word as a number.
fn number_text(alloc: Global, value_type: IntType, word: u64) -> Result<String, AllocError>
    ensures { IfOk result (λ text. string_bytes text ≡ fmt.signed_decimal (value_of value_type word)) }
{
    let value = value(value_type, word);
    format!(in alloc; "{value}")
}

/// A byte as C spells a character.
fn character_text(alloc: Global, byte: u8) -> Result<String, AllocError>
    ensures { IfOk result (λ text. string_bytes text ≡ spec.character byte) }
{
    let letter = letter_of(byte);
    if letter != 0 {
        ascii_text(alloc, "\\", letter)
    } else if is_printed(byte) {
        ascii_text(alloc, "", byte)
    } else {
        octal_escape(alloc, byte)
    }
}

/// The one character of a byte of ASCII, behind a front.
fn ascii_text(alloc: Global, front: &str, byte: u8) -> Result<String, AllocError>
    requires { byte < 128 }
    ensures { IfOk result (λ text. string_bytes text ≡ front.now ++ byte ∷ []) }
{
    let mut text = String::from_str(alloc, front)?;
    text.push(char::from(byte))?;
    Ok(text)
}

/// `\` and the three octal digits of a byte.
fn octal_escape(alloc: Global, byte: u8) -> Result<String, AllocError>
    ensures { IfOk result (λ text. string_bytes text ≡ spec.octal_escape byte) }
{
    let high = byte / 64;
    let middle = byte / 8 % 8;
    let low = byte % 8;
    format!(in alloc; "\\{high}{middle}{low}")
}

/// Whether a byte is one of ASCII that a character is shown as.
pub fn is_printed(byte: u8) -> bool
    ensures { result ≡ is_between 32 126 byte }
{
    matches!(byte, 32..=126)
}

/// The letter that stands for a byte behind `\`, as C spells it, or 0.
pub fn letter_of(byte: u8) -> u8
    ensures letter { result ≡ spec.letter_of byte }
    ensures ascii { result < 128 }
{
    match byte {
        7 => b'a',
        8 => b'b',
        9 => b't',
        10 => b'n',
        11 => b'v',
        12 => b'f',
        13 => b'r',
        39 => b'\'',
        92 => b'\\',
        _ => 0,
    }
}
