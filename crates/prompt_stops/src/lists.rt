//! The lines of breakpoints and watches: how they are listed, and which of them wait to be done.
ghost use Rattle.std.specs.Prelude.{◌≡◌, ◌==◌, ◌≤◌, IfNone, OnSome, drop, length, not, slice_get};
ghost use Rattle.gang_model.specs.Texts.Spellings as spelling;
ghost use Rattle.prompt_lines.specs.Readings.{bytes_option};
ghost use Rattle.prompt_lines.specs.Words.{held_text};
ghost use Rattle.prompt_stops.specs.Listed.{lists_of};
ghost use Rattle.prompt_stops.specs.Listed as spec;

use crate::numbers::Numbers;
use arrayvec::ArrayVec;
use debug_traits::AnswerWriter;
use prompt_lines::{HELD, Text, held_line, is_alone, split_word};
use prompt_scenes::{LastMove, ListedLine};
use prompt_texts::Page;

/// How many lines breakpoints and watches have at most, all together.
const MOST: usize = 128;

/// In how many lists a line stands at most.
const DEEPEST: u32 = 100;

/// Why a line of a list is left out.
const TOO_LONG: &[u8] =
    b"C1 BadCommand: a line of a list has at most 256 bytes, so this one is left out.\n";

/// Why another one is left out.
const FULL: &[u8] =
    b"C11 TableFull: 128 lines of breakpoints and watches are there, as many as can be, so this one is left out.\n";

/// What is said of `silent`.
const SILENT: &[u8] = b"`silent` is left out: what a stop shows is always shown.\n";

/// Lines of breakpoints and watches.
type ListedLines = ArrayVec<ListedLine, MOST>;

/// Lines that wait.
type Waiting = ArrayVec<Text, MOST>;

/// The lines of breakpoints and watches, those whose list is read, in how many lists a line stands that is read, and the lines that wait.
#[derive(Drop)]
pub struct Lists {
    lines: ListedLines,
    numbers: Numbers,
    depth: u32,
    waiting: Waiting,
}

impl Lists {
    /// Nothing is listed.
    pub fn new() -> Self
        ensures { lists_of result ≡ spec.no_lists }
    {
        Lists {
            lines: ListedLines::new(),
            numbers: Numbers::new(),
            depth: 0,
            waiting: Waiting::new(),
        }
    }

    /// The lines of breakpoints and watches.
    pub fn lines(&self) -> &[ListedLine]
        ensures { result.now ≡ (lists_of self.now).lines }
    {
        self.lines.as_slice()
    }

    /// Whether a list is read.
    pub fn is_reading(&self) -> bool
        ensures { result ≡ spec.is_reading (lists_of self.now) }
    {
        self.depth > 0
    }

    /// Whether lines wait.
    pub fn is_waiting(&self) -> bool
        ensures { result ≡ spec.is_waiting (lists_of self.now) }
    {
        !self.waiting.is_empty()
    }

    /// Begins the list of breakpoints and watches, if there are any: they have no lines then.
    pub fn list(&mut self, numbers: Numbers)
        ensures { lists_of self.new ≡ spec.listed numbers.items (lists_of self.old) }
    {
        if numbers.is_empty() {
            return;
        }
        remove_lines(numbers.as_slice(), &mut self.lines);
        self.numbers = numbers;
        self.depth = 1;
    }

    /// Reads a line of the list.
    pub fn read<O: AnswerWriter + Drop>(&mut self, line: &[u8], page: &mut Page<O>)
        ensures { lists_of self.new ≡ spec.read line.now (lists_of self.old) }
    {
        if is_word(b"end", line) {
            self.end(line, page);
        } else if is_word(b"silent", line) {
            page.put(SILENT);
        } else {
            self.add(line, page);
        }
    }

    /// Ends the list, or one that stands within it.
    fn end<O: AnswerWriter + Drop>(&mut self, line: &[u8], page: &mut Page<O>)
        ensures { lists_of self.new ≡ spec.ended line.now (lists_of self.old) }
    {
        if self.depth > 1 {
            self.depth -= 1;
            self.add_line(line, page);
        } else {
            self.depth = 0;
        }
    }

    /// Adds a line to the list; one that begins a list within it opens that.
    fn add<O: AnswerWriter + Drop>(&mut self, line: &[u8], page: &mut Page<O>)
        ensures { lists_of self.new ≡ spec.added line.now (lists_of self.old) }
    {
        if begins_list(line) {
            self.deepen();
        }
        self.add_line(line, page);
    }

    /// A line stands in one more list.
    fn deepen(&mut self)
        ensures { lists_of self.new ≡ record (lists_of self.old) { depth = spec.deeper (lists_of self.old).depth } }
    {
        if self.depth < DEEPEST {
            self.depth += 1;
        }
    }

    /// Adds a line to the list, where it is not too long.
    fn add_line<O: AnswerWriter + Drop>(&mut self, line: &[u8], page: &mut Page<O>)
        ensures { lists_of self.new ≡ spec.with_line line.now (lists_of self.old) }
    {
        if line.len() < HELD {
            add_to_each(self.numbers.as_slice(), line, &mut self.lines, page);
        } else {
            page.put(TOO_LONG);
        }
    }

    /// What waits after a line, and the lines of the breakpoints and watches that are there.
    pub fn settle(&mut self, last: LastMove, there: &[u32])
        ensures { lists_of self.new ≡ spec.settled last there.now (lists_of self.old) }
    {
        self.wait_after(last);
        keep_lines(there, &mut self.lines);
    }

    /// What waits after a line, by what stopped its last move.
    fn wait_after(&mut self, last: LastMove)
        ensures { lists_of self.new ≡ record (lists_of self.old) { waiting = spec.waiting_after last (lists_of self.old) } }
    {
        match last {
            LastMove::Still => {}
            LastMove::Free => self.waiting.clear(),
            LastMove::Stopped(number) => self.waiting = lines_of(number, self.lines.as_slice()),
        }
    }

    /// The first of the lines that wait, which waits no more.
    pub fn take_first(&mut self) -> Option<Text>
        ensures first { result ≡ slice_get (lists_of self.old).waiting 0 }
        ensures rest { OnSome result (lists_of self.new ≡ record (lists_of self.old) { waiting = drop 1 (lists_of self.old).waiting }) }
        ensures none { IfNone result (lists_of self.new ≡ lists_of self.old) }
    {
        self.waiting.pop_at(0)
    }
}

/// Takes the lines of breakpoints and watches away.
fn remove_lines(numbers: &[u32], lines: &mut ListedLines)
    ensures { lines.new.items ≡ spec.without numbers.now lines.old.items }
{
    lines.retain(|line| !is_among(numbers, line.number));
}

/// Takes the lines of all others away.
fn keep_lines(numbers: &[u32], lines: &mut ListedLines)
    ensures { lines.new.items ≡ spec.within numbers.now lines.old.items }
{
    lines.retain(|line| is_among(numbers, line.number));
}

/// Whether a number is one of these.
fn is_among(numbers: &[u32], number: u32) -> bool
    ensures { result ≡ spec.is_among numbers.now number }
{
    numbers.iter().any(|other| *other == number)
}

/// Adds a line to those of each of some breakpoints and watches.
fn add_to_each<O: AnswerWriter + Drop>(
    numbers: &[u32],
    line: &[u8],
    lines: &mut ListedLines,
    page: &mut Page<O>,
)
    ensures { lines.new.items ≡ spec.with_each numbers.now (held_text line.now) lines.old.items }
{
    for number in numbers {
        add_one(*number, line, lines, page);
    }
}

/// Adds a line to those of a breakpoint or watch, where there is room.
fn add_one<O: AnswerWriter + Drop>(
    number: u32,
    line: &[u8],
    lines: &mut ListedLines,
    page: &mut Page<O>,
)
    ensures { lines.new.items ≡ spec.with_one number (held_text line.now) lines.old.items }
{
    if lines.is_full() {
        page.put(FULL);
    } else {
        lines.push(ListedLine {
            number,
            text: held_line(line),
        });
    }
}

/// The lines of a breakpoint or watch.
fn lines_of(number: u32, lines: &[ListedLine]) -> Waiting
    requires { length lines.now ≤ MOST }
    ensures { result.items ≡ spec.lines_of number lines.now }
{
    let mut found = Waiting::new();
    for line in lines {
        if line.number == number {
            found.push(copy_of(&line.text));
        }
    }
    found
}

/// The same text.
fn copy_of(text: &Text) -> Text
    ensures { result ≡ text.now }
{
    held_line(text.as_slice())
}

/// Whether a line begins a list.
pub fn begins_list(line: &[u8]) -> bool
    ensures { result ≡ spec.begins_list line.now }
{
    begins_with(b"commands", line)
}

/// Whether a line is a word alone.
fn is_word(word: &[u8], line: &[u8]) -> bool
    ensures { result ≡ spec.is_word word.now line.now }
{
    is_alone(line) && begins_with(word, line)
}

/// Whether a line begins with a word.
fn begins_with(word: &[u8], line: &[u8]) -> bool
    ensures { result ≡ spec.begins_with word.now line.now }
{
    let (first, _) = split_word(line);
    is_all(behind(word, first))
}

/// What follows a prefix that a text begins with.
fn behind<'a>(prefix: &[u8], text: &'a [u8]) -> Option<&'a [u8]>
    ensures { bytes_option result ≡ spelling.behind prefix.now text.now }
{
    text.strip_prefix(prefix)
}

/// Whether nothing follows.
fn is_all(rest: Option<&[u8]>) -> bool
    ensures { result ≡ spec.is_all (bytes_option rest.entry) }
{
    matches!(rest, Some([]))
}
