//! How a line is read.
ghost use Rattle.std.specs.Prelude.{◌≡◌, ◌≤◌, ◌++◌, ◌∷◌, [], drop, length, map, if◌then◌else◌};
ghost use Rattle.std.specs.List.{prefix_len};
ghost use Rattle.gang_model.specs.Texts.CommandText as text;
ghost use Rattle.gang_model.specs.Texts.Spellings as spelling;
ghost use Rattle.debug_commands.specs.LineWords.{texts};
ghost use Rattle.prompt_lines.specs.Lines as lines;
ghost use Rattle.prompt_lines.specs.Readings.{bytes_option, row_view, spelled, spelled_option};
ghost use Rattle.prompt_lines.specs.Words as spec;

use crate::fronts::{begun, listed};
use crate::line::{HELD, Kind, Look, PromptLine, Text};
use crate::table::{LETTERS, LOOKS, ROWS, Row};
use debug_words::{Marks, Radix, digits_number, is_blank, next_word};

/// The word that prints.
const PRINT: &[u8] = b"print";

/// The largest number of a command.
const LARGEST: u128 = 10_000_000;

/// The largest number of steps.
const MOST_STEPS: u128 = 4_611_686_018_427_387_904;

/// What a line stands for, its line feed not included. It takes no memory and never fails.
pub fn read_line(line: &[u8]) -> PromptLine
    ensures { spelled result ≡ lines.line_of line.now }
{
    text_spelled(unblanked(line))
}

/// What a text stands for that has no blank at its beginning.
fn text_spelled(text: &[u8]) -> PromptLine
    ensures { spelled result ≡ lines.text_spelled text.now }
{
    match text {
        [] => without_text(Kind::Again),
        [first, ..] => comment_or_read(*first, text),
    }
}

/// What a text stands for that begins with a byte.
fn comment_or_read(first: u8, text: &[u8]) -> PromptLine
    ensures { spelled result ≡ if lines.begins_comment first then lines.comment else lines.letters_or (spec.found_by spec.letters text.now) text.now }
{
    if begins_comment(first) {
        without_text(Kind::Look(Look::Text))
    } else {
        letters_or(text)
    }
}

/// Whether a byte begins a comment.
fn begins_comment(byte: u8) -> bool
    ensures { result ≡ lines.begins_comment byte }
{
    byte == b'#'
}

/// A line of a kind that has no text.
fn without_text(kind: Kind) -> PromptLine
    ensures { spelled result ≡ record { kind = kind; text = [] } }
{
    PromptLine {
        kind,
        text: Text::new(),
    }
}

/// A text with a letter behind a blank, else one that the other tables read.
fn letters_or(text: &[u8]) -> PromptLine
    ensures { spelled result ≡ lines.letters_or (spec.found_by spec.letters text.now) text.now }
{
    match found_by(&LETTERS, text) {
        Some(line) => line,
        None => done_or_own(text),
    }
}

/// What is done, else what is looked at, else the debugger's own words.
fn done_or_own(text: &[u8]) -> PromptLine
    ensures { spelled result ≡ lines.done_or_own text.now }
{
    match found_by(&ROWS, text) {
        Some(line) => line,
        None => own_or(list_or_look(text), text),
    }
}

/// A text as it was found, else the debugger's own words.
fn own_or(found: Option<PromptLine>, text: &[u8]) -> PromptLine
    ensures { spelled result ≡ lines.own_or (spelled_option found) text.now }
{
    match found {
        Some(line) => line,
        None => PromptLine {
            kind: Kind::Own,
            text: held_line(text),
        },
    }
}

/// What `info` lists, else what is looked at.
fn list_or_look(text: &[u8]) -> Option<PromptLine>
    ensures { spelled_option result ≡ lines.list_or_look text.now }
{
    match listed(text) {
        Some(line) => Some(line),
        None => look_or_begun(text),
    }
}

/// What is looked at, else what begins with a front of a command.
fn look_or_begun(text: &[u8]) -> Option<PromptLine>
    ensures { spelled_option result ≡ lines.look_or_begun text.now }
{
    match found_by(&LOOKS, text) {
        Some(line) => Some(line),
        None => begun(text),
    }
}

/// The first row whose words the text begins with.
fn found_by(rows: &[Row], text: &[u8]) -> Option<PromptLine>
    ensures { spelled_option result ≡ spec.found_by (map row_view rows.now) text.now }
{
    for Row(words, kind, own) in rows {
        if let Some(rest) = behind_words(words, text) {
            return Some(PromptLine {
                kind: *kind,
                text: joined(own, rest),
            });
        }
    }
    None
}

/// What follows words that the text begins with.
fn behind_words<'a>(words: &[&[u8]], text: &'a [u8]) -> Option<&'a [u8]>
    ensures { bytes_option result ≡ spec.behind_words (texts words.now) text.now }
{
    let mut rest = text;
    for word in words {
        rest = behind_word(word, rest)?;
    }
    Some(rest)
}

/// What follows a word that the text begins with, behind blanks.
fn behind_word<'a>(word: &[u8], text: &'a [u8]) -> Option<&'a [u8]>
    ensures { bytes_option result ≡ spec.behind_word word.now text.now }
{
    let rest = behind(word, unblanked(text))?;
    if ends_word(rest) { Some(rest) } else { None }
}

/// What follows a prefix that a text begins with.
pub(crate) fn behind<'a>(prefix: &[u8], text: &'a [u8]) -> Option<&'a [u8]>
    ensures { bytes_option result ≡ spelling.behind prefix.now text.now }
{
    text.strip_prefix(prefix)
}

/// Whether a word ends before this text.
fn ends_word(text: &[u8]) -> bool
    ensures { result ≡ spec.ends_word text.now }
{
    match text {
        [] => true,
        [first, ..] => is_blank(*first) || matches!(*first, b'[' | b']' | b'='),
    }
}

/// How many blanks a text begins with.
fn blank_len(text: &[u8]) -> usize
    ensures run { result ≡ prefix_len spelling.is_blank text.now }
    ensures within { result ≤ length text.now }
{
    text.iter().take_while(|byte| is_blank(**byte)).count()
}

/// A text without the blanks at its beginning.
pub(crate) fn unblanked(text: &[u8]) -> &[u8]
    ensures { result.now ≡ spec.unblanked text.now }
{
    &text[blank_len(text)..]
}

/// A command line, as far as it is held.
pub fn held_line(text: &[u8]) -> Text
    ensures text { result.items ≡ spec.held_text text.now }
    ensures few { length result.items ≤ HELD }
{
    let mut held = Text::new();
    hold(&mut held, text);
    held
}

/// Words, a blank, and what follows them, as far as they are held.
pub(crate) fn joined(own: &[u8], rest: &[u8]) -> Text
    ensures { result.items ≡ spec.held_text (own.now ++ 32 ∷ rest.now) }
{
    let mut held = held_line(own);
    hold(&mut held, b" ");
    hold(&mut held, rest);
    held
}

/// Puts bytes behind what is held, as far as there is room.
fn hold(held: &mut Text, bytes: &[u8])
    requires { length held.old.items ≤ HELD }
    ensures text { held.new.items ≡ spec.held_text (held.old.items ++ bytes.now) }
    ensures few { length held.new.items ≤ HELD }
{
    for byte in bytes {
        if !held.is_full() {
            held.push(*byte);
        }
    }
}

/// Whether a command line is one word alone.
pub fn is_alone(text: &[u8]) -> bool
    ensures { result ≡ spec.is_alone text.now }
{
    let Some((_, rest)) = next_word(Marks::OfCommands, text) else {
        return false;
    };
    next_word(Marks::OfCommands, rest).is_none()
}

/// What stands behind the first word of a command line of two words.
pub fn argument(text: &[u8]) -> Option<&[u8]>
    ensures { bytes_option result ≡ spec.argument_of text.now }
{
    let (_, rest) = next_word(Marks::OfCommands, text)?;
    let (word, rest) = next_word(Marks::OfCommands, rest)?;
    match next_word(Marks::OfCommands, rest) {
        None => Some(word),
        Some(_) => None,
    }
}

/// The number of a lane, an element or a frame.
pub fn index(word: &[u8]) -> Option<u32>
    ensures { result ≡ text.index word.now }
{
    let number = digits_number(Radix::Decimal, word)?;
    if number <= LARGEST {
        Some(number as u32)
    } else {
        None
    }
}

/// A number of steps, at most 2^62.
pub fn moment(word: &[u8]) -> Option<u64>
    ensures { result ≡ spec.moment_of word.now }
{
    let number = digits_number(Radix::Decimal, word)?;
    if number <= MOST_STEPS {
        Some(number as u64)
    } else {
        None
    }
}

/// The command line that sets what another, which begins with `print`, names.
pub fn setting_line(text: &[u8]) -> Text
    ensures { result.items ≡ spec.setting_text text.now }
{
    joined(b"set var", behind_print(text))
}

/// What follows the first word of a command line that begins with `print`.
fn behind_print(text: &[u8]) -> &[u8]
    ensures { result.now ≡ drop 5 text.now }
{
    if text.len() < PRINT.len() {
        &[]
    } else {
        &text[PRINT.len()..]
    }
}

/// The command line that prints what a text names.
pub fn printing_line(text: &[u8]) -> Text
    ensures { result.items ≡ spec.printing_text text.now }
{
    joined(PRINT, text)
}

/// The command line of a breakpoint on what a word names.
pub fn breaking_line(word: &[u8]) -> Text
    ensures { result.items ≡ spec.breaking_text word.now }
{
    joined(b"break", word)
}
