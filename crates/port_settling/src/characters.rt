//! Characters, and numbers with the letters of thousands.
use port_draft::{Draft, value_of};
use port_tokens::{Kind, PortRefusal, Reason, Token, refusal_at};
use std::alloc::AllocError;

/// Letters behind a backslash, and the numbers of their characters.
const ESCAPES: &[(u8, u8)] = &[
    (b'0', 0),
    (b'a', 7),
    (b'b', 8),
    (b't', 9),
    (b'n', 10),
    (b'v', 11),
    (b'f', 12),
    (b'r', 13),
    (b'\\', b'\\'),
    (b'\'', b'\''),
    (b'"', b'"'),
    (b'?', b'?'),
];

/// Writes the number of a character.
pub(crate) fn expand_character(draft: &mut Draft, token: Token) -> Result<(), PortRefusal> {
    let Some(value) = number_of(draft.pool.text(token.text)) else {
        return Err(refusal_at(token.at, Reason::Character));
    };
    Ok(put_number(draft, token, i64::from(value))?)
}

/// The number of a character's text, which stands between two quotes.
fn number_of(text: &[u8]) -> Option<u8> {
    match text {
        [_, b'\\', letter, _] => escaped(*letter),
        [_, letter, _] if letter.is_ascii() => Some(*letter),
        _ => None,
    }
}

/// The number of a character behind a backslash.
fn escaped(letter: u8) -> Option<u8> {
    for row in ESCAPES {
        if row.0 == letter {
            return Some(row.1);
        }
    }
    None
}

/// Writes a number in the place of a token.
fn put_number(draft: &mut Draft, token: Token, value: i64) -> Result<(), AllocError> {
    let text = draft.pool.add_number(value)?;
    draft.put(Token {
        text,
        kind: Kind::Number,
        ..token
    })
}

/// Writes a number. A `k`, `M` or `G` behind it stands for 2 to the power of 10, 20 or 30.
pub(crate) fn expand_number(draft: &mut Draft, token: Token) -> Result<(), AllocError> {
    match thousands(draft.pool.text(token.text)) {
        Some(value) => put_number(draft, token, value),
        None => draft.put(token),
    }
}

/// The value of a decimal number with such a letter.
fn thousands(text: &[u8]) -> Option<i64> {
    let (last, digits) = text.split_last()?;
    let factor = match *last {
        b'k' => 1024,
        b'M' => 1_048_576,
        b'G' => 1_073_741_824,
        _ => return None,
    };
    if digits.first() == Some(&b'0') {
        return None;
    }
    value_of(digits)?.checked_mul(factor)
}
