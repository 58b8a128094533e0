//! Refusals of commands, as sentences with the line and a mark.
use crate::marked::put_caret;
use crate::page::Page;
use debug_answers::Refusal;
use debug_traits::AnswerWriter;
use debug_words::{Marks, is_blank, next_word};
use prompt_help::{explanation, is_setting, usage_of};

/// The most bytes of a line of commands.
const MOST_BYTES: usize = 256;

/// What is said of a longer one.
const TOO_LONG: &[u8] =
    b"C1 BadCommand: a line of commands has at most 256 bytes, where `p` and other short words count as the whole ones.\n";

/// Writes why a command is refused, and the line with a mark under what it is refused for.
pub(crate) fn put_refused<O: AnswerWriter + Drop>(
    refusal: Refusal,
    line: &[u8],
    page: &mut Page<O>,
) {
    page.put(sentence(refusal));
    let first = blanks(line);
    match refusal {
        Refusal::NoSuchName
        | Refusal::NoLine
        | Refusal::OutOfRange
        | Refusal::Constant
        | Refusal::NoSuchNumber => put_refused_part(line, page),
        _ => put_typed(line, first, page),
    }
}

/// Writes a line, and a mark under what it is refused for.
pub(crate) fn put_refused_part<O: AnswerWriter + Drop>(line: &[u8], page: &mut Page<O>) {
    put_typed(line, argument(line).unwrap_or(blanks(line)), page);
}

/// Writes what is wrong with a line, by the command line that it stands for: that this is too long, or else why it is no command.
pub fn tell_unspelled<O: AnswerWriter + Drop>(text: &[u8], line: &[u8], page: &mut Page<O>) {
    if text.len() > MOST_BYTES {
        page.put(TOO_LONG);
    } else {
        tell_unknown(line, page);
    }
}

/// Writes what is wrong with a line that stands for no command: that it is too long, why there is no such command, what to type in its
/// place, or where help is. A setting of how GDB shows things is taken in silence.
pub fn tell_unknown<O: AnswerWriter + Drop>(line: &[u8], page: &mut Page<O>) {
    let first = blanks(line);
    let text = line.get(first..).unwrap_or(&[]);
    if is_setting(text) {
        return;
    }
    if line.len() > MOST_BYTES {
        page.put(TOO_LONG);
    } else if let Some(why) = explanation(text) {
        page.put(why);
        page.put(b"\n");
    } else if let Some(usage) = usage_of(text) {
        page.put(b"C1 BadCommand: ");
        page.put(usage);
        page.put(b"\n");
        put_refused_part(line, page);
    } else {
        page.put(b"C1 BadCommand: there is no such command; `help` lists those that there are.\n");
        put_typed(line, first, page);
    }
}

/// Writes a line that was typed, and a mark under one of its bytes.
pub(crate) fn put_typed<O: AnswerWriter + Drop>(line: &[u8], at: usize, page: &mut Page<O>) {
    page.put(b"    ");
    page.put_masked(line);
    page.put(b"\n    ");
    put_caret(line, at, page);
}

/// How many blanks a line begins with.
fn blanks(line: &[u8]) -> usize {
    line.iter().take_while(|byte| is_blank(**byte)).count()
}

/// Where the last word of a line begins that no mark comes before, behind the first word.
pub(crate) fn argument(line: &[u8]) -> Option<usize> {
    let (_, rest) = next_word(Marks::OfCommands, line)?;
    let (word, behind) = next_word(Marks::OfCommands, rest)?;
    let mut place = start_of(line, word, behind);
    if word == b"var".as_slice() || word == b"variable".as_slice() {
        let (word, behind) = next_word(Marks::OfCommands, behind)?;
        place = start_of(line, word, behind);
    }
    Some(place)
}

/// Where a word of a line begins, by what follows it.
fn start_of(line: &[u8], word: &[u8], behind: &[u8]) -> usize {
    line.len()
        .saturating_sub(behind.len())
        .saturating_sub(word.len())
}

/// A refusal's number, its name and what it means.
fn sentence(refusal: Refusal) -> &'static [u8] {
    match refusal {
        Refusal::BadCommand => b"C1 BadCommand: this is no command.\n",
        Refusal::NoSuchName =>
            b"C2 NoSuchName: no variable in scope or of the file has this name and this part.\n",
        Refusal::NoHistory => b"C3 NoHistory: nothing is kept that could be taken back.\n",
        Refusal::Ended =>
            b"C4 Ended: the program has ended; `reverse-step` or `reverse-continue` goes back into it, and `run` begins it anew.\n",
        Refusal::Outermost =>
            b"C6 Outermost: this is the outermost frame, which no other called.\n",
        Refusal::NoLine => b"C7 NoLine: no line from there on has a step.\n",
        Refusal::OutOfRange => b"C8 OutOfRange: the index is past the end.\n",
        Refusal::Constant => b"C9 Constant: constants and the indices of foreach are not set.\n",
        Refusal::NoSuchNumber =>
            b"C10 NoSuchNumber: no breakpoint or watch has this number; `info breakpoints` lists them.\n",
        Refusal::TableFull =>
            b"C11 TableFull: 64 breakpoints and watches are there; `delete N` makes room.\n",
        Refusal::Memory =>
            b"C12 Memory: there is no memory for so long a history; the limit is as before.\n",
    }
}
