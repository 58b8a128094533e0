//! The lines of a source, and what stands at a place.
use gang_types::Place;
use std::alloc::{AllocError, Global};

/// The most bytes of a line that are shown.
pub(crate) const MOST_SHOWN: usize = 72;

/// What a step is, as far as a picture tells it.
#[derive(Clone, Copy, Debug, PartialEq, Eq)]
pub(crate) enum StepKind {
    /// A `break` or a `return`: its lanes leave.
    Leaves,
    /// A foreach form, or a round of one.
    Round,
    Other,
}

/// The lines of a source, without their line feeds, and without an empty last one.
///
/// # Errors
///
/// Out of memory.
pub(crate) fn lines_of(alloc: Global, source: &[u8]) -> Result<Vec<&[u8]>, AllocError> {
    let whole = source.strip_suffix(b"\n").unwrap_or(source);
    whole.split(|byte| *byte == b'\n').collect(alloc)
}

/// The part of a line that is shown: not more than so many bytes, whole characters where it is UTF-8, and no CR at its end.
pub(crate) fn shown_part(line: &[u8]) -> &[u8] {
    let line = line.strip_suffix(b"\r").unwrap_or(line);
    if line.len() <= MOST_SHOWN {
        return line;
    }
    let mut end = MOST_SHOWN;
    while end > 0 && line[end] & 0xC0 == 0x80 {
        end -= 1;
    }
    &line[..end]
}

/// What the step at a place is.
pub(crate) fn kind_at(lines: &[&[u8]], place: Place) -> StepKind {
    match word_at(lines, place) {
        b"break" | b"return" => StepKind::Leaves,
        b"foreach" | b"foreach_tiled" | b"foreach_active" | b"foreach_unique" => StepKind::Round,
        _ => StepKind::Other,
    }
}

/// The letters, digits and `_` from a place on.
fn word_at<'a>(lines: &[&'a [u8]], place: Place) -> &'a [u8] {
    let rest = text_from(lines, place);
    let end = rest.iter().position(|byte| !is_word_byte(*byte));
    &rest[..end.unwrap_or(rest.len())]
}

/// The text from a place on, up to the end of its line.
fn text_from<'a>(lines: &[&'a [u8]], place: Place) -> &'a [u8] {
    let line = (place.line as usize).saturating_sub(1);
    let column = (place.col as usize).saturating_sub(1);
    match lines.get(line) {
        Some(text) if column <= text.len() => &text[column..],
        _ => &[],
    }
}

fn is_word_byte(byte: u8) -> bool {
    byte.is_ascii_alphanumeric() || byte == b'_'
}
