//! The lines of a source that people name.
ghost use Rattle.std.specs.Prelude.{◌≡◌, ◌≤◌, ◌<◌, ◌==◌, ◌&&◌, length, get_or, Some, IfSome, if◌then◌else◌};
ghost use Rattle.gang_model.specs.Texts.CommandText.{command_of};
ghost use Rattle.gang_model.specs.Texts.Spellings.{in_range};
ghost use Rattle.prompt_lines.specs.Readings.{bytes_option};
ghost use Rattle.prompt_lines.specs.Sources as spec;

use crate::reading::{argument, behind, breaking_line, unblanked};
use debug_commands::{Command, read_command};
use debug_words::is_digit;

/// The line that a command line which begins with `break` names, in a source: by its number, by the name of the source's file and a
/// number, or by the name of a function.
pub fn line_named(text: &[u8], name: &[u8], source: &[u8]) -> Option<u32>
    ensures { result ≡ spec.line_named (record { name = name.now; text = source.now }) text.now }
{
    match break_of(text) {
        Some(line) => Some(line),
        None => line_of_word(argument(text)?, name, source),
    }
}

/// The line that a word names.
fn line_of_word(word: &[u8], name: &[u8], source: &[u8]) -> Option<u32>
    ensures { result ≡ spec.line_of_word (record { name = name.now; text = source.now }) word.now }
{
    match behind_file(word, name) {
        Some(rest) => line_in_file(rest, source),
        None => function_line(source, word),
    }
}

/// The line that a number or a function names behind the name of the source.
fn line_in_file(word: &[u8], source: &[u8]) -> Option<u32>
    ensures { result ≡ spec.line_in_file source.now word.now }
{
    match break_of(breaking_line(word).as_slice()) {
        Some(line) => Some(line),
        None => function_line(source, word),
    }
}

/// The line of a breakpoint that a command line makes.
fn break_of(text: &[u8]) -> Option<u32>
    ensures { result ≡ spec.break_of (command_of text.now) }
{
    match read_command(text) {
        Some(Command::Break(line)) => Some(line),
        _ => None,
    }
}

/// What follows the name of the source and `:`.
fn behind_file<'a>(word: &'a [u8], name: &[u8]) -> Option<&'a [u8]>
    ensures { bytes_option result ≡ spec.behind_file name.now word.now }
{
    behind(b":", behind(name, word)?)
}

/// The line on which a function of a name is declared first, outside all braces: the name stands there with `(` behind it.
fn function_line(text: &[u8], name: &[u8]) -> Option<u32>
    ensures { result ≡ spec.function_line text.now name.now }
{
    match function_place(text, name) {
        Some(place) => in_words(line_at(text, place)),
        None => None,
    }
}

/// The place at which a function of a name is declared first, outside all braces.
pub(crate) fn function_place(text: &[u8], name: &[u8]) -> Option<usize>
    ensures place { result ≡ spec.function_place text.now name.now }
    ensures within { IfSome result (λ place. place < length text.now) }
{
    let mut opened = 0usize;
    let mut closed = 0usize;
    for place in 0..text.len() {
        if declares(text, place, name, opened, closed) {
            return Some(place);
        }
        opened += count_at(text, place, b'{');
        closed += count_at(text, place, b'}');
    }
    None
}

/// The line of a place.
pub(crate) fn line_at(text: &[u8], place: usize) -> usize
    requires { place < length text.now }
    ensures { result ≡ spec.line_at text.now place }
{
    text[..place].iter().filter(|byte| **byte == b'\n').count() + 1
}

/// Whether a function of a name is declared at a place that so many opened and closed braces stand before.
fn declares(text: &[u8], place: usize, name: &[u8], opened: usize, closed: usize) -> bool
    requires { place ≤ length text.now }
    ensures { result ≡ ((opened == closed) && spec.begins_function text.now name.now place) }
{
    opened == closed && begins_function(text, place, name)
}

/// How often a byte stands at a place: once or not.
fn count_at(text: &[u8], place: usize, byte: u8) -> usize
    requires { place < length text.now }
    ensures { result ≡ (if get_or text.now place 0 == byte then 1 else 0) }
{
    if text[place] == byte { 1 } else { 0 }
}

/// A line, if 32 bits hold its number.
fn in_words(line: usize) -> Option<u32>
    ensures { result ≡ in_range 0 4294967295 (Some line) }
{
    u32::try_from(line).ok()
}

/// Whether a name stands at a place as a word, with `(` behind it.
fn begins_function(text: &[u8], place: usize, name: &[u8]) -> bool
    requires { place ≤ length text.now }
    ensures { result ≡ spec.begins_function text.now name.now place }
{
    begins_word(text, place) && opens(behind(name, &text[place..]))
}

/// Whether no name goes on at a place.
pub(crate) fn begins_word(text: &[u8], place: usize) -> bool
    requires { place ≤ length text.now }
    ensures { result ≡ spec.begins_word text.now place }
{
    place == 0 || !is_in_name(text[place - 1])
}

/// Whether a text opens a list of parameters.
fn opens(rest: Option<&[u8]>) -> bool
    ensures { result ≡ spec.opens (bytes_option rest.entry) }
{
    match rest {
        None => false,
        Some(rest) => matches!(unblanked(rest), [b'(', ..]),
    }
}

/// Whether a name goes on with a byte.
pub(crate) fn is_in_name(byte: u8) -> bool
    ensures { result ≡ spec.is_in_name byte }
{
    is_digit(byte) || matches!(byte, b'a'..=b'z' | b'A'..=b'Z' | b'_')
}
