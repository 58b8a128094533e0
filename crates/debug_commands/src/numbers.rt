//! Numbers and values of command lines.
ghost use Rattle.std.specs.Prelude.{◌≡◌, ◌-◌, ◌^◌};
ghost use Rattle.gang_model.specs.Texts.Spellings as spelling;
ghost use Rattle.gang_model.specs.Texts.CommandText as text;
ghost use Rattle.debug_words.specs.Digits as digits;

use debug_words::{Radix, digits_number, is_same};

/// The largest number of a command.
const LARGEST: u64 = 10_000_000;

/// The number that the whole word is, if it has 64 bits.
fn word_number(radix: Radix, word: &[u8]) -> Option<u64>
    ensures { result ≡ spelling.in_range 0 (2 ^ 64 - 1) (spelling.digits_number (digits.is_digit_in radix) (digits.base radix) word.now) }
{
    let number = digits_number(radix, word)?;
    u64::try_from(number).ok()
}

/// The decimal number, if it is neither too small nor too large for a command.
fn decimal_from(least: u32, word: &[u8]) -> Option<u32>
    ensures { result ≡ spelling.in_range least 10000000 (spelling.decimal_number word.now) }
{
    let number = word_number(Radix::Decimal, word)?;
    if u64::from(least) <= number && number <= LARGEST {
        Some(number as u32)
    } else {
        None
    }
}

/// A number of times, of a line or of a breakpoint.
pub(crate) fn number(word: &[u8]) -> Option<u32>
    ensures { result ≡ text.number word.now }
{
    decimal_from(1, word)
}

/// The place of an element, or the number of a lane.
pub(crate) fn index(word: &[u8]) -> Option<u32>
    ensures { result ≡ text.index word.now }
{
    decimal_from(0, word)
}

/// A hexadecimal number behind `0x`, or a decimal one, if it has 64 bits.
fn magnitude(word: &[u8]) -> Option<u64>
    ensures { result ≡ text.magnitude word.now }
{
    match word.strip_prefix(b"0x") {
        Some(digits) => word_number(Radix::Hexadecimal, digits),
        None => word_number(Radix::Decimal, word),
    }
}

/// The value that a variable is set to.
pub(crate) fn value(word: &[u8]) -> Option<i128>
    ensures { result ≡ text.value_word word.now }
{
    if is_same(word, b"true") {
        return Some(1);
    }
    if is_same(word, b"false") {
        return Some(0);
    }
    match word.strip_prefix(b"-") {
        Some(digits) => magnitude(digits).map(|number| -i128::from(number)),
        None => magnitude(word).map(i128::from),
    }
}
