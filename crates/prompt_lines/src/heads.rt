//! The heads of functions, as a source has them.
ghost use Rattle.std.specs.Prelude.{◌≡◌, ◌≤◌, ◌<◌, ◌-◌, not, drop, length, take};
ghost use Rattle.std.specs.Char.{is_ascii_whitespace};
ghost use Rattle.std.specs.List.{prefix_len};
ghost use Rattle.prompt_lines.specs.Heads as spec;
ghost use Rattle.prompt_lines.specs.Readings.{bytes_option};

use crate::reading::behind;
use crate::sources::{function_place, line_at};

/// The number of a line, and what it has of the head of a function: from the result's type up to the brace that opens the body.
#[derive(Clone, Copy)]
pub struct Head<'a> {
    pub line: usize,
    pub text: &'a [u8],
}

/// The head of the function of a name that a source declares first, if it declares one.
pub fn function_head<'a>(text: &'a [u8], name: &[u8]) -> Option<Head<'a>>
    ensures { spec.head_option result ≡ spec.function_head text.now name.now }
{
    match function_place(text, name) {
        Some(place) => Some(head_at(text, place)),
        None => None,
    }
}

/// The head in which a place is.
fn head_at(text: &[u8], place: usize) -> Head<'_>
    requires { place < length text.now }
    ensures { spec.head_view result ≡ spec.head_at text.now place }
{
    Head {
        line: line_at(text, place),
        text: head_front(&text[head_start(text, place)..]),
    }
}

/// Where the head begins in which a place is.
fn head_start(text: &[u8], place: usize) -> usize
    requires { place ≤ length text.now }
    ensures start { result ≡ spec.head_start text.now place }
    ensures within { result ≤ place }
{
    let mut start = 0;
    for at in 0..place {
        if comes_before(text[at]) {
            start = at + 1;
        }
    }
    start
}

/// Whether a head can begin behind a byte.
fn comes_before(byte: u8) -> bool
    ensures { result ≡ spec.comes_before byte }
{
    matches!(byte, b'\n' | b'}' | b';')
}

/// What a text begins with, up to where a head ends.
fn head_front(text: &[u8]) -> &[u8]
    ensures { result.now ≡ spec.head_front text.now }
{
    stripped(&text[..head_len(text)])
}

/// How many bytes stand before the one before which a head ends.
fn head_len(text: &[u8]) -> usize
    ensures run { result ≡ prefix_len (λ byte. not (spec.ends_head byte)) text.now }
    ensures within { result ≤ length text.now }
{
    text.iter().take_while(|byte| !ends_head(**byte)).count()
}

/// Whether a head ends before a byte.
fn ends_head(byte: u8) -> bool
    ensures { result ≡ spec.ends_head byte }
{
    matches!(byte, b'{' | b'\n')
}

/// A text without the blanks around it.
pub fn stripped(text: &[u8]) -> &[u8]
    ensures { result.now ≡ spec.stripped text.now }
{
    text.trim_ascii()
}

/// Whether a part stands anywhere in a name.
pub fn has_part(part: &[u8], name: &[u8]) -> bool
    ensures { result ≡ spec.has_part part.now name.now }
{
    for place in 0..name.len() + 1 {
        if stands_at(part, name, place) {
            return true;
        }
    }
    false
}

/// Whether a part stands at a place of a name.
fn stands_at(part: &[u8], name: &[u8], place: usize) -> bool
    requires { place ≤ length name.now }
    ensures { result ≡ spec.stands_at part.now name.now place }
{
    behind(part, &name[place..]).is_some()
}
