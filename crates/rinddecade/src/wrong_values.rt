//! Which value of a line of the input is refused.
use crate::refusing::Texts;
use debug_inputs::InputFault;
use desk_options::Program;
use ispc_debugger::open_session;
use ispc_options::{Options, Width};
use ispc_refusals::Refusal;
use std::alloc::Global;

/// A line of an input, up to whose end the input is read, and where it begins.
#[derive(Clone, Copy)]
struct RefusedLine<'a> {
    source: &'a [u8],
    entry: Option<&'a str>,
    input: &'a [u8],
    begin: usize,
    number: u32,
}

impl<'a> RefusedLine<'a> {
    /// A line of the input of a program.
    fn new(program: &Program<'a>, texts: Texts<'a>, number: u32) -> Self {
        RefusedLine {
            source: texts.source.text,
            entry: program.options.entry,
            input: texts.input.text,
            begin: start_of_line(texts.input.text, number),
            number,
        }
    }

    /// Whether so many bytes of the line are refused: the input is read up to there.
    fn is_refused(self, alloc: Global, size: usize) -> bool {
        let options = Options {
            width: Width::Four,
            history: 1,
            steps: 1,
            entry: self.entry,
            lane_pure: false,
        };
        let end = self.begin.saturating_add(size);
        let front = self.input.get(..end).unwrap_or(self.input);
        match &open_session::<4>(alloc, self.source, front, &options) {
            Err(
                Refusal::Input(
                    InputFault::BadLine(line)
                    | InputFault::Range(line)
                    | InputFault::TooLarge(Some(line)),
                ),
            ) => *line == self.number,
            _ => false,
        }
    }
}

/// Where in a line of the input the first value stands that is refused; or the name, where it is this, or the end, where a value is
/// wanting.
pub(crate) fn wrong_value(
    alloc: Global,
    program: &Program<'_>,
    texts: Texts<'_>,
    fault: &InputFault,
    number: u32,
    line: &[u8],
) -> usize {
    let Some(equals) = line.iter().position(|byte| *byte == b'=') else {
        return word_from(line, 0);
    };
    let first = word_from(line, equals.saturating_add(1));
    let refused = RefusedLine::new(program, texts, number);
    if !refused.is_refused(alloc, word_end(line, first)) {
        return value_behind(alloc, refused, line, first);
    }
    let is_number = is_value(line.get(first..word_end(line, first)).unwrap_or(&[]));
    if is_number && matches!(fault, InputFault::BadLine(_)) {
        word_from(line, 0)
    } else {
        first
    }
}

/// The start of the first value that is refused, behind one that is not. The values are halved until one is left.
fn value_behind(alloc: Global, refused: RefusedLine<'_>, line: &[u8], first: usize) -> usize {
    let (mut low, mut high) = (first, line.len());
    for _ in 0..usize::BITS {
        if low >= high {
            break;
        }
        let middle = low.midpoint(high);
        if refused.is_refused(alloc, word_end(line, middle)) {
            high = middle;
        } else {
            low = middle.saturating_add(1);
        }
    }
    word_start(line, low)
}

/// Where a line begins.
fn start_of_line(text: &[u8], number: u32) -> usize {
    let mut start = 0usize;
    for _ in 1..number {
        let rest = text.get(start..).unwrap_or(&[]);
        let size = rest.iter().take_while(|byte| **byte != b'\n').count();
        start = start.saturating_add(size).saturating_add(1);
    }
    start
}

/// The first place from one on that is no blank.
fn word_from(line: &[u8], at: usize) -> usize {
    let rest = line.get(at..).unwrap_or(&[]);
    let blanks = rest.iter().take_while(|byte| is_blank(**byte)).count();
    at.saturating_add(blanks)
}

/// The first place from one on that is a blank, or the end.
fn word_end(line: &[u8], at: usize) -> usize {
    let rest = line.get(at..).unwrap_or(&[]);
    let size = rest.iter().take_while(|byte| !is_blank(**byte)).count();
    at.saturating_add(size)
}

/// Where the word begins that stands at a place.
fn word_start(line: &[u8], at: usize) -> usize {
    let front = line.get(..at).unwrap_or(line);
    let before = front.iter().rev().take_while(|byte| !is_blank(**byte));
    at.saturating_sub(before.count())
}

fn is_blank(byte: u8) -> bool {
    matches!(byte, b' ' | b'\t' | b'\r')
}

/// Whether a word is spelled as a value.
fn is_value(word: &[u8]) -> bool {
    match word {
        b"true" | b"false" => true,
        [b'-', digits @ ..] | digits => is_number(digits),
    }
}

fn is_number(digits: &[u8]) -> bool {
    match digits {
        [] => false,
        [b'0', b'x'] => false,
        [b'0', b'x', digits @ ..] => digits.iter().all(|byte| byte.is_ascii_hexdigit()),
        digits => digits.iter().all(|byte| byte.is_ascii_digit()),
    }
}
