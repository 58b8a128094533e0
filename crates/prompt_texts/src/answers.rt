//! What a command is answered, for people.
ghost use Rattle.std.specs.Prelude.{◌++◌, decimal};
ghost use Rattle.gang_model.specs.Texts.Text.{index_text, target_text};
ghost use Rattle.debug_commands.specs.Views.{target_view};
ghost use Rattle.prompt_texts.specs.Shown.{Puts};

use crate::causes::tell_refused_here;
use crate::changes::Before;
use crate::frames::put_frames;
use crate::marked::digits;
use crate::moments::step_of;
use crate::page::Page;
use crate::places::{put_around, put_place};
use crate::refusals::put_refused;
use crate::source::Source;
use crate::values::put_values;
use debug_answers::{Answer, Stop};
use debug_commands::Target;
use debug_session::Session;
use debug_traits::{AnswerWriter, Fault, RecordedMachine, Shown};
use gang_types::FaultName;
use value_digits::Digits;

/// What is said of every fault.
const NOTHING_DONE: &[u8] = b"; nothing of this step is done:";

/// Writes what a move came to: why it ended, where the program stands with the source around it, and what changed.
pub fn tell_move<M: RecordedMachine, O: AnswerWriter + Drop>(
    answer: &Answer<'_>,
    line: &[u8],
    before: &Before,
    source: Source<'_>,
    session: &Session<M>,
    page: &mut Page<O>,
) {
    if let Answer::Refused(refusal) = answer {
        put_refused(*refusal, line, page);
        return;
    }
    let columns = put_reason(answer, page);
    let machine = session.machine();
    put_place(columns, machine.position(), step_of(machine), source, page);
    if let Some(position) = machine.position() {
        put_around(&position, source, page);
    }
    before.tell_changes(machine, page);
}

/// Writes why a move ended, where it is not the goal or the end, and says how many columns that takes.
fn put_reason<O: AnswerWriter + Drop>(answer: &Answer<'_>, page: &mut Page<O>) -> usize {
    match answer {
        Answer::AtBreakpoint(number) => put_stop(b"breakpoint ", *number, page),
        Answer::AtWatch(number) => put_stop(b"watch ", *number, page),
        Answer::AtFault(fault) => put_fault(*fault, page),
        other => {
            let reason = reason_text(other);
            page.put(reason);
            reason.len()
        }
    }
}

/// Why a move ended, where it is no stop, no fault, and not the goal or the end.
fn reason_text(answer: &Answer<'_>) -> &'static [u8] {
    match answer {
        Answer::HistoryEnd => b"the history goes back no further:",
        Answer::StepLimit => b"the step limit of one command is reached:",
        Answer::UndoneStep => b"a step is taken back:",
        Answer::UndonePoke => b"a change by `set var` is taken back:",
        _ => b"",
    }
}

/// Writes a breakpoint or a watch that ended a move.
fn put_stop<O: AnswerWriter + Drop>(name: &[u8], number: u32, page: &mut Page<O>) -> usize {
    put_numbered(name, number, b":", page);
    name.len().saturating_add(digits(number)).saturating_add(1)
}

fn put_numbered<O: AnswerWriter + Drop>(front: &[u8], number: u32, back: &[u8], page: &mut Page<O>)
    ensures { Puts (front.now ++ decimal number ++ back.now) page.old.has_failed page.new.has_failed (O.written page.old.writer) (O.written page.new.writer) }
{
    page.put(front);
    page.put_number(i128::from(number));
    page.put(back);
}

/// Writes a fault and its lane, as a sentence.
fn put_fault<O: AnswerWriter + Drop>(fault: Fault, page: &mut Page<O>) -> usize {
    let text = fault_text(fault.name);
    page.put(text);
    page.put(b" in lane ");
    page.put_number(fault.lane as i128);
    page.put(NOTHING_DONE);
    text.len().saturating_add(NOTHING_DONE.len())
}

/// A fault's number, its name and what it means.
pub(crate) fn fault_text(name: FaultName) -> &'static [u8] {
    match name {
        FaultName::DivideByZero => b"F1 DivideByZero: a division by 0",
        FaultName::Index => b"F2 Index: an index outside the array",
        FaultName::LaneIndex => b"F3 LaneIndex: a lane that is not there",
        FaultName::Assert => b"F4 Assert: what is asserted is false",
        FaultName::CallDepth => b"F5 CallDepth: 64 frames exist",
    }
}

/// Writes what a command that moves nothing came to.
pub fn tell<M: RecordedMachine, O: AnswerWriter + Drop>(
    answer: &Answer<'_>,
    line: &[u8],
    source: Source<'_>,
    session: &Session<M>,
    page: &mut Page<O>,
) {
    match answer {
        Answer::Shows { target, shown } => {
            put_target(*target, page);
            page.put(b" =");
            put_values(Digits::Decimal, *shown, target.at, session.machine(), page);
            page.put(b"\n");
        }
        Answer::BreaksAt { number, line } => {
            put_numbered(b"breakpoint ", *number, b" at line ", page);
            page.put_number(i128::from(*line));
            page.put(b"\n");
        }
        Answer::Watches { number, target } => {
            put_numbered(b"watch ", *number, b": ", page);
            put_target(*target, page);
            page.put(b"\n");
        }
        Answer::Refused(refusal) => tell_refused_here(*refusal, line, session.machine(), page),
        other => tell_list(other, source, session, page),
    }
}

/// Writes what a command that lists, deletes or limits came to.
fn tell_list<M: RecordedMachine, O: AnswerWriter + Drop>(
    answer: &Answer<'_>,
    source: Source<'_>,
    session: &Session<M>,
    page: &mut Page<O>,
) {
    match answer {
        Answer::Deleted(None) => page.put(b"all breakpoints and watches are deleted\n"),
        Answer::Deleted(Some(number)) => put_numbered(b"deleted ", *number, b"\n", page),
        Answer::KeepsHistory(limit) => put_numbered(
            b"up to ",
            *limit,
            b" steps and changes can be taken back\n",
            page,
        ),
        Answer::ListsStops => put_stops(session, page),
        Answer::ListsLocals => put_locals(session.machine(), page),
        Answer::ListsFrames => put_frames(None, source, session.machine(), page),
        _ => {}
    }
}

/// Writes a name, and an index in brackets.
pub(crate) fn put_target<O: AnswerWriter + Drop>(target: Target<'_>, page: &mut Page<O>)
    ensures { Puts (target_text (target_view target.entry)) page.old.has_failed page.new.has_failed (O.written page.old.writer) (O.written page.new.writer) }
{
    page.put(target.name);
    put_index(target.at, page);
}

/// Writes an index in brackets, where there is one.
fn put_index<O: AnswerWriter + Drop>(at: Option<u32>, page: &mut Page<O>)
    ensures { Puts (index_text at) page.old.has_failed page.new.has_failed (O.written page.old.writer) (O.written page.new.writer) }
{
    if let Some(index) = at {
        put_numbered(b"[", index, b"]", page);
    }
}

/// Writes a line for each breakpoint and watch.
fn put_stops<M: RecordedMachine, O: AnswerWriter + Drop>(session: &Session<M>, page: &mut Page<O>) {
    if session.stops().is_empty() {
        page.put(b"no breakpoints or watches\n");
    }
    for entry in session.stops() {
        page.put_number(i128::from(entry.number));
        match entry.stop {
            Stop::Line(line) => put_numbered(b"  breakpoint, line ", line, b"\n", page),
            Stop::Watch { variable, at } => {
                page.put(b"  watch, ");
                put_watched(variable, at, session.machine(), page);
            }
        }
    }
}

/// Writes a variable of the file by its number, with an index if there is one, and ends the line.
pub(crate) fn put_watched<M: RecordedMachine, O: AnswerWriter + Drop>(
    variable: usize,
    at: Option<u32>,
    machine: &M,
    page: &mut Page<O>,
) {
    if let Some(named) = machine.file_variable(variable) {
        page.put(named.name);
    }
    put_index(at, page);
    page.put(b"\n");
}

/// The most variables of a program.
const VARIABLES: u32 = 256;

/// Writes a line for each local variable in scope, parameters left out.
fn put_locals<M: RecordedMachine, O: AnswerWriter + Drop>(machine: &M, page: &mut Page<O>) {
    if machine.next_local(0).is_none() {
        page.put(b"no locals\n");
    }
    let mut place = 0;
    for _ in 0..VARIABLES {
        if let Some(local) = machine.next_local(place) {
            put_variable(local.variable.name, local.variable.shown, machine, page);
            place = local.next;
        }
    }
}

/// Writes a line: a variable's name and values.
fn put_variable<M: RecordedMachine, O: AnswerWriter + Drop>(
    name: &[u8],
    shown: Shown,
    machine: &M,
    page: &mut Page<O>,
) {
    page.put(name);
    page.put(b" =");
    put_values(Digits::Decimal, shown, None, machine, page);
    page.put(b"\n");
}
