//! The values of numbers.
ghost use Rattle.std.specs.Prelude.{◌≤◌};

use port_tokens::byte;

/// The value of a number's text, with no regard to the letters of its type.
pub fn value_of(text: &[u8]) -> Option<i64> {
    let base = base_of(text);
    let start = if base == 10 { 0 } else { 2usize };
    let mut value = 0i64;
    for at in start..text.len() {
        let letter = byte(text, at);
        if !is_suffix(letter) {
            let digit = i64::from(char::from(letter).to_digit(base)?);
            value = value.checked_mul(i64::from(base))?.checked_add(digit)?;
        }
    }
    Some(value)
}

/// The base that the front of a number tells.
fn base_of(text: &[u8]) -> u32
    ensures least { 2 ≤ result }
    ensures most { result ≤ 36 }
{
    if byte(text, 0) != b'0' {
        return 10;
    }
    match byte(text, 1) {
        b'x' | b'X' => 16,
        b'b' | b'B' => 2,
        _ => 10,
    }
}

fn is_suffix(letter: u8) -> bool {
    letter == b'u' || letter == b'U' || letter == b'l' || letter == b'L'
}
