//! What is told of the lines of breakpoints and watches.
ghost use Rattle.prompt_texts.specs.Shown.{Puts};
ghost use Rattle.prompt_stops.specs.Listed as spec;

use debug_answers::Stop;
use debug_session::Session;
use debug_traits::{AnswerWriter, RecordedMachine};
use prompt_lines::{are_numbers, is_alone};
use prompt_scenes::{Holding, ListedLine};
use prompt_texts::{Page, tell_usage};
use prompt_values::tell_missing;

/// How `commands` is used.
const USAGE: &[u8] =
    b"`commands N` is followed by lines up to a line `end`: they are done each time breakpoint or watch N has stopped a move.";

/// What is said where nothing can have lines.
const NOTHING: &[u8] = b"no breakpoints or watches\n";

/// What is said where the input ends within a list.
const UNENDED: &[u8] = b"The input ends within a list, before its line `end`.\n";

/// Tells whose list a line begins, or why it begins none.
pub fn tell_begun<M: RecordedMachine, O: AnswerWriter + Drop>(
    line: &[u8],
    numbers: &[u32],
    holding: &Holding,
    session: &Session<M>,
    page: &mut Page<O>,
) {
    if !are_numbers(line) {
        tell_usage(USAGE, line, page);
    } else if numbers.is_empty() && is_alone(line) {
        page.put(NOTHING);
    } else {
        tell_missing(line, holding, session, page);
        tell_numbers(numbers, page);
    }
}

/// Tells whose lines follow.
fn tell_numbers<O: AnswerWriter + Drop>(numbers: &[u32], page: &mut Page<O>) {
    for (place, number) in numbers.iter().enumerate() {
        page.put(if place == 0 { b"lines for " } else { b", " });
        page.put_number(i128::from(*number));
    }
    if !numbers.is_empty() {
        page.put(b", up to a line `end`:\n");
    }
}

/// Tells that the input ends within a list.
pub fn tell_unended<O: AnswerWriter + Drop>(page: &mut Page<O>)
    ensures { Puts spec.unended page.old.has_failed page.new.has_failed (O.written page.old.writer) (O.written page.new.writer) }
{
    page.put(UNENDED);
}

/// Lists the lines of all breakpoints and watches.
pub fn tell_all_lines<M: RecordedMachine, O: AnswerWriter + Drop>(
    listed: &[ListedLine],
    holding: &Holding,
    session: &Session<M>,
    page: &mut Page<O>,
) {
    for entry in session.stops() {
        tell_lines(entry.number, listed, page);
    }
    tell_frame_lines(listed, holding, page);
}

/// Lists the lines of the watches.
pub fn tell_watch_lines<M: RecordedMachine, O: AnswerWriter + Drop>(
    listed: &[ListedLine],
    holding: &Holding,
    session: &Session<M>,
    page: &mut Page<O>,
) {
    for entry in session.stops() {
        if let Stop::Watch { .. } = entry.stop {
            tell_lines(entry.number, listed, page);
        }
    }
    tell_frame_lines(listed, holding, page);
}

/// Lists the lines of the watches of frames.
fn tell_frame_lines<O: AnswerWriter + Drop>(
    listed: &[ListedLine],
    holding: &Holding,
    page: &mut Page<O>,
) {
    for watch in holding.frames.as_slice() {
        tell_lines(watch.number(), listed, page);
    }
}

/// Tells the lines of a breakpoint or watch, if it has any.
fn tell_lines<O: AnswerWriter + Drop>(number: u32, listed: &[ListedLine], page: &mut Page<O>) {
    let mut is_first = true;
    for line in listed {
        if line.number == number {
            if is_first {
                page.put_number(i128::from(number));
                page.put(b" does, when it has stopped a move:\n");
            }
            is_first = false;
            tell_line(line, page);
        }
    }
}

/// Tells a line of a breakpoint or watch.
fn tell_line<O: AnswerWriter + Drop>(line: &ListedLine, page: &mut Page<O>) {
    page.put(b"    ");
    page.put_masked(line.text.as_slice());
    page.put(b"\n");
}
