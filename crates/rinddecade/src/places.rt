//! The steps that `--around` names.
use std::alloc::{AllocError, Global};

/// The most of them.
const MOST_PLACES: usize = 16;

/// The steps that a text names, with commas between them; none where it names none, or too many.
pub(crate) fn places_in(alloc: Global, text: &[u8]) -> Result<Option<Vec<u32>>, AllocError> {
    let mut places = Vec::new(alloc);
    let mut begin = 0usize;
    for at in 0..text.len().saturating_add(1) {
        if matches!(text.get(at), None | Some(b',')) {
            match number_in(text.get(begin..at).unwrap_or(&[])) {
                Some(place) if places.len() < MOST_PLACES => places.push(place)?,
                _ => return Ok(None),
            }
            begin = at.saturating_add(1);
        }
    }
    Ok(Some(places))
}

/// The number that digits spell.
fn number_in(digits: &[u8]) -> Option<u32> {
    if digits.is_empty() {
        return None;
    }
    let mut number = 0u32;
    for digit in digits {
        if !digit.is_ascii_digit() {
            return None;
        }
        number = number
            .checked_mul(10)?
            .checked_add(u32::from(digit.wrapping_sub(b'0')))?;
    }
    Some(number)
}
