//! Conditions in the lines that people type, and the number that a line begins with.
ghost use Rattle.std.specs.Prelude.{◌≡◌, ◌≤◌, ◌+◌, ℕ, length, Some};
ghost use Rattle.prompt_lines.specs.Conditions as spec;
ghost use Rattle.prompt_lines.specs.Readings.{bytes_option};
ghost use Rattle.prompt_lines.specs.Sources.{first_place};

use crate::line::HELD;
use crate::reading::{behind, unblanked};
use crate::sources::{begins_word, is_in_name};
use debug_words::is_blank;

/// The word before a condition.
const IF: &[u8] = b"if";

/// What stands before the first word `if` of a command line that a condition stands behind, or the whole line.
pub fn before_condition(text: &[u8]) -> &[u8]
    ensures { result.now ≡ spec.before_if text.now }
{
    match if_place(text) {
        None => text,
        Some(place) => &text[..place],
    }
}

/// The condition behind the first word `if` of a command line.
pub fn condition_in(text: &[u8]) -> Option<&[u8]>
    ensures { bytes_option result ≡ spec.condition_in text.now }
{
    match if_place(text) {
        None => None,
        Some(place) => Some(unblanked(&text[place + 2..])),
    }
}

/// Where the first word `if` of a command line stands that a condition stands behind.
fn if_place(text: &[u8]) -> Option<usize>
    ensures place { result ≡ spec.if_place text.now }
    ensures within { (place : ℕ) → result ≡ Some place → place + 2 ≤ length text.now }
{
    if text.len() >= HELD {
        None
    } else {
        first_if(text)
    }
}

/// The same of a command line that was not cut.
fn first_if(text: &[u8]) -> Option<usize>
    ensures place { result ≡ first_place (spec.is_if text.now) (length text.now) 0 }
    ensures within { (place : ℕ) → result ≡ Some place → place + 2 ≤ length text.now }
{
    for place in 0..text.len() {
        if is_if(text, place) {
            return Some(place);
        }
    }
    None
}

/// Whether the word `if` stands at a place, with a condition behind it.
fn is_if(text: &[u8], place: usize) -> bool
    requires { place ≤ length text.now }
    ensures { result ≡ spec.is_if text.now place }
{
    begins_word(text, place) && begins(behind(IF, &text[place..]))
}

/// Whether a condition stands behind the word `if`.
fn begins(rest: Option<&[u8]>) -> bool
    ensures { result ≡ spec.begins (bytes_option rest.entry) }
{
    match rest {
        None => false,
        Some(rest) => begins_by(rest),
    }
}

/// Whether the word `if` ends before this text, and something else than blanks follows.
fn begins_by(rest: &[u8]) -> bool
    ensures { result ≡ spec.begins_by rest.now }
{
    match rest {
        [] => false,
        [first, ..] => !is_in_name(*first) && !unblanked(rest).is_empty(),
    }
}

/// The first word of a text by its blanks, and what follows it, without the blanks before that.
pub fn split_word(text: &[u8]) -> (&[u8], &[u8])
    ensures word { result.0.now ≡ spec.first_word text.now }
    ensures rest { result.1.now ≡ spec.behind_first text.now }
{
    let text = unblanked(text);
    let len = word_len(text);
    (&text[..len], unblanked(&text[len..]))
}

/// How many bytes stand before the first blank.
fn word_len(text: &[u8]) -> usize
    ensures run { result ≡ spec.word_len text.now }
    ensures within { result ≤ length text.now }
{
    text.iter().take_while(|byte| !is_blank(**byte)).count()
}
