//! The numbers of breakpoints and watches that a command line names.
ghost use Rattle.std.specs.Prelude.{◌≡◌, ◌≤◌, ◌==◌, length, not};
ghost use Rattle.std.specs.List.{prefix_len};
ghost use Rattle.gang_model.specs.Texts.CommandText.{is_mark};
ghost use Rattle.gang_model.specs.Texts.Spellings.{words_of_line};
ghost use Rattle.prompt_lines.specs.Numbers as spec;

use crate::line::HELD;
use crate::reading::{index, is_alone};
use debug_words::{Marks, next_word};

/// The numbers from the first to the last.
#[derive(Clone, Copy, Debug, PartialEq, Eq)]
pub struct NumberRange {
    pub first: u32,
    pub last: u32,
}

/// Whether all that stands behind the first word of a command line are numbers such as `5` and ranges such as `5-7`.
pub fn are_numbers(text: &[u8]) -> bool
    ensures { result ≡ spec.are_numbers text.now }
{
    text.len() < HELD && !has_other(behind_first(text))
}

/// Whether a command line names a number; one word alone names all.
pub fn names_number(number: u32, text: &[u8]) -> bool
    ensures { result ≡ spec.names_number number text.now }
{
    is_alone(text) || is_named(number, behind_first(text))
}

/// What stands behind the first word of a command line.
pub fn behind_first(text: &[u8]) -> &[u8]
    ensures { words_of_line is_mark result.now ≡ spec.arguments text.now }
{
    match next_word(Marks::OfCommands, text) {
        Some((_, rest)) => rest,
        None => &[],
    }
}

/// The numbers that a word stands for: one alone is a range too, and one that is upside down is none.
pub fn range_of(word: &[u8]) -> Option<NumberRange>
    ensures { result ≡ spec.range_of word.now }
{
    in_order(index(&word[..dash_place(word)]), last_of(word))
}

/// Whether one of the words of a text stands for a number.
fn is_named(number: u32, text: &[u8]) -> bool
    ensures { result ≡ spec.is_named number (words_of_line is_mark text.now) }
{
    let mut rest = text;
    while let Some((word, after)) = next_word(Marks::OfCommands, rest) {
        if is_within(number, range_of(word)) {
            return true;
        }
        rest = after;
    }
    false
}

/// Whether one of the words of a text stands for no number.
fn has_other(text: &[u8]) -> bool
    ensures { result ≡ spec.has_other (words_of_line is_mark text.now) }
{
    let mut rest = text;
    while let Some((word, after)) = next_word(Marks::OfCommands, rest) {
        if range_of(word).is_none() {
            return true;
        }
        rest = after;
    }
    false
}

/// Whether a number is one of a range.
fn is_within(number: u32, range: Option<NumberRange>) -> bool
    ensures { result ≡ spec.is_within number range }
{
    match range {
        Some(NumberRange { first, last }) => first <= number && number <= last,
        None => false,
    }
}

/// The numbers from the first to the last, unless they stand upside down.
fn in_order(first: Option<u32>, last: Option<u32>) -> Option<NumberRange>
    ensures { result ≡ spec.in_order first last }
{
    let (Some(first), Some(last)) = (first, last) else {
        return None;
    };
    if first <= last {
        Some(NumberRange { first, last })
    } else {
        None
    }
}

/// The number behind the first `-` of a word, and of a word without one the word's own.
fn last_of(word: &[u8]) -> Option<u32>
    ensures { result ≡ spec.last_of word.now }
{
    let place = dash_place(word);
    if place == word.len() {
        index(word)
    } else {
        index(&word[place + 1..])
    }
}

/// How many bytes stand before the first `-`.
fn dash_place(word: &[u8]) -> usize
    ensures run { result ≡ spec.dash_place word.now }
    ensures within { result ≤ length word.now }
{
    word.iter().take_while(|byte| **byte != b'-').count()
}
