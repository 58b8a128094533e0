//! The texts of answers.
ghost use Rattle.std.specs.Prelude.{◌≡◌, ◌++◌, codes, decimal, false, is_err};
ghost use Rattle.gang_model.specs.Debugger.Debugger as model;
ghost use Rattle.gang_model.specs.Debugger.Debugger.{Debugger, Setting};
ghost use Rattle.gang_model.specs.Texts.Text.{stopped, text};
ghost use Rattle.debug_traits.specs.Devices.{Writes};
ghost use Rattle.debug_traits.specs.Machines.{fault_view};
ghost use Rattle.debug_answers.specs.Meanings.{AreStops, Means};

use crate::change_texts::{write_breaks_at, write_deleted, write_history, write_watches};
use crate::fixed_texts::{fault_words, refusal_line};
use crate::frame_texts::write_frames;
use crate::local_texts::write_locals;
use crate::place_texts::write_place_line;
use crate::stop_texts::write_stops;
use crate::value_texts::write_shown;
use debug_answers::{Answer, NumberedStop};
use debug_traits::{AnswerWriter, Fault, RecordedMachine, WriteFault};
use itoa::Buffer;

/// Writes the text of an answer to a command that led to where the machine stands, with these breakpoints and watches.
///
/// # Errors
///
/// `WriteFault` where the writer fails or takes 0 bytes; a strict front of the text has been written then.
pub fn write_answer<M: RecordedMachine, O: AnswerWriter>(
    answer: &Answer<'_>,
    machine: &M,
    stops: &[NumberedStop],
    writer: &mut O,
) -> Result<(), WriteFault>
    requires works { O.has_failed writer.old ≡ false }
    ensures said { (s : Setting) (at d : Debugger) (meant : model.Answer) → M.stands machine.now s at → at.events ≡ d.events
        → AreStops s stops.now d.stops → Means s d answer.now meant
        → Writes (text s meant d) (O.written writer.old) (O.written writer.new) (O.has_failed writer.new) result }
    ensures failed { O.has_failed writer.new ≡ is_err result }
{
    match answer {
        Answer::Here => write_here(b"", machine, writer),
        Answer::AtBreakpoint(number) => write_at(b"breakpoint ", *number, machine, writer),
        Answer::AtWatch(number) => write_at(b"watch ", *number, machine, writer),
        Answer::AtFault(fault) => write_fault(*fault, machine, writer),
        Answer::HistoryEnd => write_here(b"history end: ", machine, writer),
        Answer::StepLimit => write_here(b"step limit: ", machine, writer),
        Answer::UndoneStep => write_here(b"undone step: ", machine, writer),
        Answer::UndonePoke => write_here(b"undone poke: ", machine, writer),
        Answer::Shows { target, shown } => write_shown(*target, *shown, machine, writer),
        Answer::BreaksAt { number, line } => write_breaks_at(*number, *line, writer),
        Answer::Watches { number, target } => write_watches(*number, *target, writer),
        Answer::Deleted(number) => write_deleted(*number, writer),
        Answer::ListsStops => write_stops(stops, machine, writer),
        Answer::ListsLocals => write_locals(machine, writer),
        Answer::ListsFrames => write_frames(machine, writer),
        Answer::KeepsHistory(limit) => write_history(*limit, writer),
        Answer::Silent => Ok(()),
        Answer::Refused(refusal) => writer.write_all(refusal_line(*refusal)),
    }
}

/// Writes a line: some words, and where the program stands.
fn write_here<M: RecordedMachine, O: AnswerWriter>(
    words: &[u8],
    machine: &M,
    writer: &mut O,
) -> Result<(), WriteFault>
    requires works { O.has_failed writer.old ≡ false }
    ensures said { (s : Setting) (d : Debugger) → M.stands machine.now s d
        → Writes (stopped words.now s d) (O.written writer.old) (O.written writer.new) (O.has_failed writer.new) result }
    ensures failed { O.has_failed writer.new ≡ is_err result }
{
    write_place_line(&[words], machine.position(), writer)
}

/// Writes a line: a word, a number, and where the program stands.
fn write_at<M: RecordedMachine, O: AnswerWriter>(
    word: &[u8],
    number: u32,
    machine: &M,
    writer: &mut O,
) -> Result<(), WriteFault>
    requires works { O.has_failed writer.old ≡ false }
    ensures said { (s : Setting) (d : Debugger) → M.stands machine.now s d
        → Writes (stopped (word.now ++ decimal number ++ codes ": ") s d) (O.written writer.old) (O.written writer.new) (O.has_failed writer.new) result }
    ensures failed { O.has_failed writer.new ≡ is_err result }
{
    let mut digits = Buffer::new();
    let number = digits.format(number).as_bytes();
    write_place_line(&[word, number, b": "], machine.position(), writer)
}

/// Writes a fault, and where the program stands.
fn write_fault<M: RecordedMachine, O: AnswerWriter>(
    fault: Fault,
    machine: &M,
    writer: &mut O,
) -> Result<(), WriteFault>
    requires works { O.has_failed writer.old ≡ false }
    ensures said { (s : Setting) (d : Debugger) → M.stands machine.now s d
        → Writes (text s (model.AtFault (fault_view fault)) d) (O.written writer.old) (O.written writer.new) (O.has_failed writer.new) result }
    ensures failed { O.has_failed writer.new ≡ is_err result }
{
    let mut lane = Buffer::new();
    let why = [
        b"fault ".as_slice(),
        fault_words(fault.name),
        b" lane ",
        lane.format(fault.lane).as_bytes(),
        b": ",
    ];
    write_place_line(&why, machine.position(), writer)
}
