//! What is looked at: nothing changes in the debugger.
ghost use Rattle.std.specs.Prelude.{◌≡◌, ◌<◌, ◌+◌, ◌-◌, ◌++◌, codes, pos, suc};
ghost use Rattle.std.specs.Fmt.{signed_decimal};
ghost use Rattle.std.specs.Option.{unwrap_or};
ghost use Rattle.gang_model.specs.Debugger.Debugger.{Debugger, Setting, now};
ghost use Rattle.gang_model.specs.Debugger.Positions.{line_now};
ghost use Rattle.debug_session.specs.Sessions.{StandsFor};
ghost use Rattle.prompt_texts.specs.Shown.{Puts};
ghost use Rattle.prompt_texts.specs.SourceLines as lines;

use crate::answers::{put_target, put_watched};
use crate::help::{put_help, put_topic};
use crate::moments::step_of;
use crate::page::Page;
use crate::places::{put_around, put_line, put_place};
use crate::source::Source;
use debug_answers::Stop;
use debug_commands::Target;
use debug_session::Session;
use debug_traits::{AnswerWriter, FramedMachine, RecordedMachine, Shown};
use debug_words::is_blank;
use gang_types::{IntType, Rate};
use prompt_help::explanation;
use value_digits::Digits;

/// What `info` lists.
const LISTS: &[u8] =
    b"`info` lists: breakpoints, watchpoints, locals, args, variables, functions [TEXT], display, frame, stack, lanes, record, checkpoints, source, line [N], program.\n";

/// The most variables of a file that are shown.
const VARIABLES: usize = 256;

/// Writes lines of the source from one on up to another, that of the place with a mark.
pub fn list_lines<M: RecordedMachine, O: AnswerWriter + Drop>(
    first: u32,
    next: u32,
    source: Source<'_>,
    session: &Session<M>,
    page: &mut Page<O>,
)
    ensures { (s : Setting) (d : Debugger) → StandsFor M.stands session.now s d
        → Puts (lines.listed_text source.entry.text.now (unwrap_or (line_now s.program (now s d)) 0) first next) page.old.has_failed page.new.has_failed (O.written page.old.writer) (O.written page.new.writer) }
{
    let here = line_here(session.machine());
    if first < next {
        put_lines_or_past(here, first, next - 1, source, page);
    } else {
        page.put(b"line 1 is the first one\n");
    }
}

/// The line where the program stands, or 0 where it has ended.
fn line_here<M: RecordedMachine>(machine: &M) -> u32
    ensures { (s : Setting) (d : Debugger) → M.stands machine.now s d → result ≡ unwrap_or (line_now s.program (now s d)) 0 }
{
    match machine.position() {
        Some(position) => position.place.line,
        None => 0,
    }
}

/// Writes lines of the source from one on up to and with another one, or that there is no first of them.
fn put_lines_or_past<O: AnswerWriter + Drop>(
    here: u32,
    first: u32,
    last: u32,
    source: Source<'_>,
    page: &mut Page<O>,
)
    requires { last < 4294967295 }
    ensures { Puts (lines.lines_or_past source.entry.text.now here first (last + 1) (lines.line_of source.entry.text.now first)) page.old.has_failed page.new.has_failed (O.written page.old.writer) (O.written page.new.writer) }
{
    match source.line(first) {
        Some(_) => put_lines(here, first, last.min(source.lines()), source, page),
        None => put_past_end(first, source, page),
    }
}

/// Writes lines of the source from one on up to and with another one.
fn put_lines<O: AnswerWriter + Drop>(
    here: u32,
    first: u32,
    last: u32,
    source: Source<'_>,
    page: &mut Page<O>,
)
    requires { last < 4294967295 }
    ensures { Puts (lines.lines_text source.entry.text.now here first (suc last - first)) page.old.has_failed page.new.has_failed (O.written page.old.writer) (O.written page.new.writer) }
{
    for number in first..last + 1 {
        put_line(number, line_mark(here, number), source, page);
    }
}

/// The mark before the line where the program stands, or before another one.
fn line_mark(here: u32, number: u32) -> &'static [u8]
    ensures { result.now ≡ lines.line_mark here number }
{
    if number == here { b"-> " } else { b"   " }
}

/// Writes that there is no line of a number.
fn put_past_end<O: AnswerWriter + Drop>(line: u32, source: Source<'_>, page: &mut Page<O>)
    ensures { Puts (lines.past_text source.entry.text.now line) page.old.has_failed page.new.has_failed (O.written page.old.writer) (O.written page.new.writer) }
{
    page.put(b"there is no line ");
    put_line_number(line, page);
    put_count(source.lines(), page);
}

/// Writes the number of a line.
fn put_line_number<O: AnswerWriter + Drop>(line: u32, page: &mut Page<O>)
    ensures { Puts (signed_decimal (pos line)) page.old.has_failed page.new.has_failed (O.written page.old.writer) (O.written page.new.writer) }
{
    page.put_number(i128::from(line));
}

/// Writes how many lines a source has, and ends the line.
fn put_count<O: AnswerWriter + Drop>(count: u32, page: &mut Page<O>)
    ensures { Puts (lines.count_text count) page.old.has_failed page.new.has_failed (O.written page.old.writer) (O.written page.new.writer) }
{
    page.put(b": the source has ");
    put_lines_number(count, page);
}

/// Writes a number of lines, and ends the line.
fn put_lines_number<O: AnswerWriter + Drop>(count: u32, page: &mut Page<O>)
    ensures { Puts (signed_decimal (pos count) ++ codes " lines\n") page.old.has_failed page.new.has_failed (O.written page.old.writer) (O.written page.new.writer) }
{
    page.put_number(i128::from(count));
    page.put(b" lines\n");
}

/// Writes where the program stands.
pub fn show_here<M: RecordedMachine, O: AnswerWriter + Drop>(
    source: Source<'_>,
    session: &Session<M>,
    page: &mut Page<O>,
) {
    let machine = session.machine();
    put_place(0, machine.position(), step_of(machine), source, page);
    if let Some(position) = session.machine().position() {
        put_around(&position, source, page);
    }
}

/// Writes whether a line has a step, and which one from there on has the first.
pub fn show_line<M: RecordedMachine, O: AnswerWriter + Drop>(
    line: u32,
    session: &Session<M>,
    page: &mut Page<O>,
) {
    page.put(b"line ");
    page.put_number(i128::from(line));
    match session.machine().line_from(line) {
        Some(first) if first == line => page.put(b" has a step\n"),
        Some(first) => {
            page.put(b" has no step; the first line from there on that has one is ");
            page.put_number(i128::from(first));
            page.put(b"\n");
        }
        None => page.put(b" has no step, and none behind it has one\n"),
    }
}

/// Writes the types of the variables of the file.
pub fn show_variables<M: RecordedMachine, O: AnswerWriter + Drop>(
    session: &Session<M>,
    page: &mut Page<O>,
) {
    let machine = session.machine();
    if machine.file_variable(0).is_none() {
        page.put(b"no variables of the file\n");
    }
    for number in 0..VARIABLES {
        if let Some(named) = machine.file_variable(number) {
            page.put(named.name);
            page.put(b": ");
            put_type(named.shown, false, page);
        }
    }
}

/// Writes a line: a number, and what is displayed by it, with the letter of its digits.
pub fn show_displayed<O: AnswerWriter + Drop>(
    number: u32,
    digits: Digits,
    typed: &[u8],
    page: &mut Page<O>,
) {
    page.put_number(i128::from(number));
    page.put(b": ");
    page.put(letter_text(digits));
    page.put_masked(typed);
    page.put(b"\n");
}

/// The letter of digits, behind `/`.
fn letter_text(digits: Digits) -> &'static [u8] {
    match digits {
        Digits::Decimal => b"",
        Digits::Unsigned => b"/u ",
        Digits::Hexadecimal => b"/x ",
        Digits::Octal => b"/o ",
        Digits::Binary => b"/t ",
        Digits::Character => b"/c ",
    }
}

/// Writes a line for each watch.
pub fn show_watches<M: RecordedMachine, O: AnswerWriter + Drop>(
    session: &Session<M>,
    page: &mut Page<O>,
) {
    let mut is_empty = true;
    for entry in session.stops() {
        if let Stop::Watch { variable, at } = entry.stop {
            is_empty = false;
            page.put_number(i128::from(entry.number));
            page.put(b"  watch, ");
            put_watched(variable, at, session.machine(), page);
        }
    }
    if is_empty {
        page.put(b"no watches\n");
    }
}

/// Writes the name of the source, and how many lines it has.
pub fn show_source<O: AnswerWriter + Drop>(source: Source<'_>, page: &mut Page<O>) {
    page.put_masked(source.name);
    page.put(b", ");
    page.put_number(i128::from(source.lines()));
    page.put(b" lines\n");
}

/// Writes the type of a variable in the frame at a depth.
pub fn show_type<M: FramedMachine, O: AnswerWriter + Drop>(
    target: Target<'_>,
    depth: usize,
    session: &Session<M>,
    page: &mut Page<O>,
) {
    match session.machine().find_at(depth, target.name) {
        None => page.put(b"C2 NoSuchName: no variable in scope or of the file has this name.\n"),
        Some(shown) => {
            put_target(target, page);
            page.put(b": ");
            put_type(shown, target.at.is_some(), page);
        }
    }
}

/// Writes a type, or that of one of the variable's lanes or elements, and ends the line.
fn put_type<O: AnswerWriter + Drop>(shown: Shown, is_part: bool, page: &mut Page<O>) {
    if shown.is_constant {
        page.put(b"const ");
    }
    if !is_part {
        page.put(match shown.rate {
            Rate::Uniform => b"uniform ",
            Rate::Varying => b"varying ",
        });
    }
    page.put(type_text(shown.value_type));
    if shown.is_array && !is_part {
        page.put(b"[");
        page.put_number(shown.count as i128);
        page.put(b"]");
    }
    page.put(b"\n");
}

/// The name of a type.
fn type_text(value_type: IntType) -> &'static [u8] {
    match value_type {
        IntType::Bool => b"bool",
        IntType::Int8 => b"int8",
        IntType::Int16 => b"int16",
        IntType::Int32 => b"int32",
        IntType::Int64 => b"int64",
        IntType::Uint8 => b"uint8",
        IntType::Uint16 => b"uint16",
        IntType::Uint32 => b"uint32",
        IntType::Uint64 => b"uint64",
    }
}

/// Writes what commands there are, or what one does.
pub fn show_help<O: AnswerWriter + Drop>(topic: &[u8], page: &mut Page<O>) {
    if topic.is_empty() {
        put_help(page);
    } else {
        put_topic(topic, page);
    }
}

/// Writes why there is nothing of a kind that `info` could list, else what there is.
pub fn show_lists<O: AnswerWriter + Drop>(line: &[u8], page: &mut Page<O>) {
    if let Some(why) = explanation(line) {
        page.put(why);
        page.put(b"\n");
    } else {
        page.put(LISTS);
    }
}

/// Writes a text behind the blanks that it begins with, and ends the line; `\\n` ends a line too. Of no text nothing is written.
pub fn show_text<O: AnswerWriter + Drop>(text: &[u8], page: &mut Page<O>) {
    let blanks = text.iter().take_while(|byte| is_blank(**byte)).count();
    let mut rest = text.get(blanks..).unwrap_or(&[]);
    if rest.is_empty() {
        return;
    }
    if let Some(front) = rest.strip_suffix(b"\\n") {
        rest = front;
    }
    page.put_masked(rest);
    page.put(b"\n");
}
