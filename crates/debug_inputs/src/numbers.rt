//! The values that words of an input spell.
ghost use Rattle.std.specs.Prelude.{◌≡◌, ◌^◌, min, option_map};
ghost use Rattle.gang_model.specs.Debugger.Debugger as debugger;
ghost use Rattle.gang_model.specs.Texts.Spellings as spelling;
ghost use Rattle.debug_inputs.specs.Limited.{limited};

use debug_words::{Radix, digits_number, is_same};
use gang_types::{IntType, value, wrap};

/// The number of hexadecimal digits behind `0x`, or of decimal digits; 2^64 where it is more.
fn unsigned_number(word: &[u8]) -> Option<u128>
    ensures { result ≡ option_map (min (2 ^ 64)) (spelling.number_of_word word.now) }
{
    match word.strip_prefix(b"0x") {
        Some(digits) => digits_number(Radix::Hexadecimal, digits),
        None => digits_number(Radix::Decimal, word),
    }
}

/// The value that a word spells, or, where it lies further from 0 than 2^64, that number with its sign: no type has either.
pub(crate) fn number(word: &[u8]) -> Option<i128>
    ensures { result ≡ option_map limited (spelling.value_of_word spelling.decimal_number spelling.number_of_word word.now) }
{
    if is_same(word, b"true") {
        return Some(1);
    }
    if is_same(word, b"false") {
        return Some(0);
    }
    match word.strip_prefix(b"-") {
        Some(digits) => Some(-(digits_number(Radix::Decimal, digits)? as i128)),
        None => Some(unsigned_number(word)? as i128),
    }
}

/// Whether a type has this value.
pub(crate) fn is_value(value_type: IntType, number: i128) -> bool
    ensures { result ≡ debugger.is_value value_type number }
{
    value(value_type, wrap(value_type, number)) == number
}
