//! The lines of a source.
use std::alloc::{AllocError, Global};

/// The lines of a source without their ends, a carriage return before a line feed among them; the first at 0.
///
/// # Errors
///
/// Out of memory.
pub(crate) fn lines_of(alloc: Global, source: &[u8]) -> Result<Vec<&[u8]>, AllocError> {
    let mut lines = Vec::new(alloc);
    let mut begin = 0usize;
    for (at, byte) in source.iter().enumerate() {
        if *byte == b'\n' {
            let line = source.get(begin..at).unwrap_or(&[]);
            lines.push(line.strip_suffix(b"\r").unwrap_or(line))?;
            begin = at.saturating_add(1);
        }
    }
    if begin < source.len() {
        lines.push(source.get(begin..).unwrap_or(&[]))?;
    }
    Ok(lines)
}

/// The line of a number, the first being 1; nothing where there is none.
pub(crate) fn line_at<'a>(lines: &[&'a [u8]], number: usize) -> &'a [u8] {
    match number.checked_sub(1) {
        Some(index) => match lines.get(index) {
            Some(line) => line,
            None => &[],
        },
        None => &[],
    }
}

/// A line without the blanks at its front, and no more of it than so many bytes: no character of it is cut.
pub(crate) fn front_of(line: &[u8], most: usize) -> &[u8] {
    let text = line.get(blanks_of(line)..).unwrap_or(&[]);
    if text.len() <= most {
        return text;
    }
    text.get(..end_within(text, most)).unwrap_or(&[])
}

/// How many blanks a line begins with.
fn blanks_of(line: &[u8]) -> usize {
    for (at, byte) in line.iter().enumerate() {
        if *byte != b' ' && *byte != b'\t' {
            return at;
        }
    }
    line.len()
}

/// The end of the last character that ends within so many bytes.
fn end_within(text: &[u8], most: usize) -> usize {
    for end in (1..most.saturating_add(1)).rev() {
        if !goes_on(text, end) {
            return end;
        }
    }
    0
}

/// Whether a byte goes on with a character.
fn goes_on(text: &[u8], at: usize) -> bool {
    match text.get(at) {
        Some(byte) => *byte & 0xC0 == 0x80,
        None => false,
    }
}
