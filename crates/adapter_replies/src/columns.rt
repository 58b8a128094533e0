//! Columns of a text, which count its units of UTF-16.
ghost use Rattle.std.specs.Prelude.{◌≡◌, ◌≤◌, ◌*◌, length, take};
ghost use Rattle.adapter_replies.specs.Columns as spec;

/// The text before a column.
pub(crate) fn front_of(text: &[u8], column: u64) -> &[u8]
    ensures { result.now ≡ spec.front text.now column }
{
    &text[..end_of(text, column.saturating_sub(1))]
}

/// Where those first characters of a text end that have at most so many units.
fn end_of(text: &[u8], units: u64) -> usize
    ensures front { take result text.now ≡ spec.first_units units text.now }
    ensures within { result ≤ length text.now }
{
    let mut left = units;
    for (place, byte) in text.iter().enumerate() {
        let needed = units_of(*byte) as u64;
        if left < needed {
            return place;
        }
        left -= needed;
    }
    text.len()
}

/// How many units a text has.
pub(crate) fn utf16_length(text: &[u8]) -> usize
    ensures units { result ≡ spec.utf16_length text.now }
    ensures bound { result ≤ length text.now * 2 }
{
    let mut units = 0;
    for byte in text {
        units += units_of(*byte);
    }
    units
}

/// How many units the character has that a byte begins; none where it begins none.
fn units_of(byte: u8) -> usize
    ensures units { result ≡ spec.units_of byte }
    ensures bound { result ≤ 2 }
{
    match byte {
        0..=127 => 1,
        128..=191 => 0,
        192..=239 => 1,
        _ => 2,
    }
}
