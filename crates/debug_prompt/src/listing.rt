//! Which lines of the source are listed.
ghost use Rattle.std.specs.Prelude.{◌≡◌, ◌≤◌, ◌==◌, drop, length, not};
ghost use Rattle.std.specs.List.{prefix_len};
ghost use Rattle.gang_model.specs.Debugger.Debugger.{Debugger, Setting, now};
ghost use Rattle.gang_model.specs.Debugger.Debugger as model;
ghost use Rattle.debug_session.specs.Sessions.{StandsFor};
ghost use Rattle.prompt_lines.specs.Readings.{bytes_option};
ghost use Rattle.prompt_lines.specs.Sources.{line_named};
ghost use Rattle.prompt_lines.specs.Words.{breaking_text};
ghost use Rattle.prompt_scenes.specs.Holding.{sheet};
ghost use Rattle.debug_prompt.specs.Listing as spec;

use debug_session::Session;
use debug_traits::RecordedMachine;
use debug_words::is_blank_line;
use prompt_lines::{argument, breaking_line, is_alone};
use prompt_scenes::line_of;
use prompt_texts::Source;

/// How many bytes the word has that a command line of lines begins with.
const WORD: usize = 5;

/// Lines that are listed: the first one, and the one behind the last.
#[derive(Clone, Copy, Debug, Drop)]
pub(crate) struct Listed {
    pub(crate) first: u32,
    pub(crate) next: u32,
}

/// Which lines a command line names.
#[derive(Clone, Copy, Debug, Drop)]
pub(crate) enum Lines {
    /// Those behind the ones that were listed last, at first those around the place.
    Next,
    /// Those before the ones that were listed last.
    Before,
    Around(u32),
    From(Listed),
}

impl Lines {
    /// The lines that are listed now, so many at once, where a frame stands on a line.
    pub(crate) fn after(self, last: Option<Listed>, size: u32, place: u32) -> Listed
        ensures { result ≡ spec.listed size self last place }
    {
        match (self, last) {
            (Lines::Next, Some(last)) => lines_from(size, last.next),
            (Lines::Next, None) => lines_from(size, around(size, place)),
            (Lines::Before, Some(last)) => lines_before(size, last.first),
            (Lines::Before, None) => lines_before(size, around(size, place)),
            (Lines::Around(line), _) => lines_from(size, around(size, line)),
            (Lines::From(listed), _) => listed,
        }
    }
}

/// The lines that a line names, so many at once: those behind the last ones where it repeats.
pub(crate) fn lines_meant(
    is_again: bool,
    text: &[u8],
    size: u32,
    source: Source<'_>,
) -> Option<Lines>
    ensures { result ≡ spec.lines_meant is_again size (sheet source.entry) text.now }
{
    if is_again {
        Some(Lines::Next)
    } else {
        lines_of(text, size, source)
    }
}

/// The lines that a command line which begins with `break` names, so many at once.
fn lines_of(text: &[u8], size: u32, source: Source<'_>) -> Option<Lines>
    ensures { result ≡ spec.lines_of size (sheet source.entry) text.now }
{
    if is_alone(text) {
        Some(Lines::Next)
    } else {
        match line_of(text, source) {
            Some(line) => Some(Lines::Around(line)),
            None => lines_by_sign(text, size, source),
        }
    }
}

/// The lines that a command line names by `+`, by `-` or by a comma.
fn lines_by_sign(text: &[u8], size: u32, source: Source<'_>) -> Option<Lines>
    ensures { result ≡ spec.lines_by_sign size (sheet source.entry) text.now }
{
    match signed(argument(text)) {
        Some(lines) => Some(lines),
        None => lines_between(behind_word(text), size, source),
    }
}

/// The lines that a word names by its sign.
fn signed(word: Option<&[u8]>) -> Option<Lines>
    ensures { result ≡ spec.signed (bytes_option word.entry) }
{
    match word {
        Some([b'-']) => Some(Lines::Before),
        Some([b'+']) => Some(Lines::Next),
        _ => None,
    }
}

/// What stands behind the word that a command line of lines begins with.
fn behind_word(text: &[u8]) -> &[u8]
    ensures { result.now ≡ drop 5 text.now }
{
    text.get(WORD..).unwrap_or(&[])
}

/// The lines from one to another, which stand before and behind a comma.
fn lines_between(text: &[u8], size: u32, source: Source<'_>) -> Option<Lines>
    ensures { result ≡ spec.lines_between size (sheet source.entry) text.now }
{
    match between(text, size, source) {
        Some(listed) => Some(Lines::From(listed)),
        None => None,
    }
}

/// The first of the lines, and the one behind the last, which stand before and behind a comma.
fn between(text: &[u8], size: u32, source: Source<'_>) -> Option<Listed>
    ensures { result ≡ spec.between size (sheet source.entry) text.now }
{
    let comma = comma_place(text);
    if comma < text.len() {
        from_to(&text[..comma], &text[comma + 1..], size, source)
    } else {
        None
    }
}

/// How many bytes stand before the first comma.
fn comma_place(text: &[u8]) -> usize
    ensures run { result ≡ prefix_len (λ byte. not (byte == 44)) text.now }
    ensures within { result ≤ length text.now }
{
    text.iter().take_while(|byte| **byte != b',').count()
}

/// The lines from one to another. One of them may be missing.
fn from_to(front: &[u8], back: &[u8], size: u32, source: Source<'_>) -> Option<Listed>
    ensures { result ≡ spec.from_to size (sheet source.entry) front.now back.now }
{
    if is_blank_line(front) {
        up_to(end_of(back, source), size)
    } else if is_blank_line(back) {
        from_on(end_of(front, source), size)
    } else {
        both(end_of(front, source), end_of(back, source))
    }
}

/// So many lines up to one.
fn up_to(last: Option<u32>, size: u32) -> Option<Listed>
    ensures { result ≡ spec.up_to size last }
{
    match last {
        Some(last) => Some(lines_before(size, last.saturating_add(1))),
        None => None,
    }
}

/// So many lines from one on.
fn from_on(first: Option<u32>, size: u32) -> Option<Listed>
    ensures { result ≡ spec.from_on size first }
{
    match first {
        Some(first) => Some(lines_from(size, first)),
        None => None,
    }
}

/// The lines from one up to another that does not stand before it.
fn both(first: Option<u32>, last: Option<u32>) -> Option<Listed>
    ensures { result ≡ spec.both first last }
{
    match (first, last) {
        (Some(first), Some(last)) if first < last.saturating_add(1) => Some(Listed {
            first,
            next: last.saturating_add(1),
        }),
        _ => None,
    }
}

/// The line that a part of a text names.
fn end_of(part: &[u8], source: Source<'_>) -> Option<u32>
    ensures { result ≡ line_named (sheet source.entry) (breaking_text part.now) }
{
    line_of(breaking_line(part).as_slice(), source)
}

/// The line where a frame stands, the first one where the program has ended.
pub(crate) fn place<M: RecordedMachine>(frame: usize, session: &Session<M>) -> u32
    ensures { (s : Setting) (d : Debugger) → StandsFor M.stands session.now s d → spec.IsPlace s d frame result }
{
    let machine = session.machine();
    match machine.position() {
        Some(top) => place_below(frame, top.place.line, top.depth, machine),
        None => 1,
    }
}

/// The line where the frame of a number stands, the top one on a line and at a depth.
fn place_below<M: RecordedMachine>(frame: usize, top: u32, depth: usize, machine: &M) -> u32
    ensures { (s : Setting) (d : Debugger) → M.stands machine.now s d → depth ≡ model.depth (now s d) → spec.IsPlaceBelow s d frame top result }
{
    if frame == 0 {
        top
    } else {
        called_on(depth.saturating_sub(frame), top, machine)
    }
}

/// The line of the call that the frame at a depth made, else another one.
fn called_on<M: RecordedMachine>(depth: usize, top: u32, machine: &M) -> u32
    ensures { (s : Setting) (d : Debugger) → M.stands machine.now s d → spec.IsCallLine s d depth top result }
{
    match machine.call(depth) {
        Some(position) => position.place.line,
        None => top,
    }
}

/// The first line of those that are listed around one.
fn around(size: u32, line: u32) -> u32
    ensures { result ≡ spec.around size line }
{
    line.saturating_sub(size / 2).max(1)
}

/// As many lines as are listed at once, from one on.
fn lines_from(size: u32, first: u32) -> Listed
    ensures { result ≡ spec.lines_from size first }
{
    Listed {
        first,
        next: first.saturating_add(size),
    }
}

/// As many lines as are listed at once, before one.
fn lines_before(size: u32, next: u32) -> Listed
    ensures { result ≡ spec.lines_before size next }
{
    Listed {
        first: next.saturating_sub(size).max(1),
        next,
    }
}
