//! How many lines a page has, as it is set.

/// The height that a text spells, 0 for `unlimited` too.
pub fn height_of(text: &[u8]) -> Option<u32> {
    let (word, _) = split_word(text);
    if word == b"unlimited".as_slice() {
        return Some(0);
    }
    number_of(word)
}

/// The height that a line at the prompt sets: `set height N`, or `set pagination on`, which gives the usual one, or `off`.
pub fn height_set_by(line: &[u8], usual: u32) -> Option<u32> {
    let (first, rest) = split_word(line);
    let (second, value) = split_word(rest);
    if first != b"set".as_slice() {
        None
    } else if second == b"height".as_slice() {
        height_of(value)
    } else if second == b"pagination".as_slice() {
        let (word, _) = split_word(value);
        Some(if word == b"off".as_slice() { 0 } else { usual })
    } else {
        None
    }
}

/// The number that decimal digits spell, at most 100,000.
fn number_of(word: &[u8]) -> Option<u32> {
    let mut number = 0u32;
    for byte in word {
        if !byte.is_ascii_digit() {
            return None;
        }
        let digit = u32::from(byte.saturating_sub(b'0'));
        number = number.saturating_mul(10).saturating_add(digit).min(100_000);
    }
    if word.is_empty() { None } else { Some(number) }
}

/// The first word of a text, and what stands behind it.
fn split_word(text: &[u8]) -> (&[u8], &[u8]) {
    let begin = text.iter().take_while(|byte| is_blank(**byte)).count();
    let rest = text.get(begin..).unwrap_or(&[]);
    let size = rest.iter().take_while(|byte| !is_blank(**byte)).count();
    let word = rest.get(..size).unwrap_or(&[]);
    (word, rest.get(size..).unwrap_or(&[]))
}

fn is_blank(byte: u8) -> bool {
    matches!(byte, b' ' | b'\t' | b'\r')
}
