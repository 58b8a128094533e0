//! Moments of a run: how many steps were made, and what can be taken back.
ghost use Rattle.prompt_texts.specs.Moments as spec;
ghost use Rattle.prompt_texts.specs.Shown.{Puts};

use crate::page::Page;
use crate::places::put_counted;
use crate::refusals::put_refused_part;
use debug_session::Session;
use debug_traits::{AnswerWriter, RecordedMachine};

/// The most events that a machine keeps that has a limit.
const MOST_KEPT: usize = 65_536;

/// How many steps the run has made, where no limit is set to what can be taken back.
pub(crate) fn step_of<M: RecordedMachine>(machine: &M) -> Option<usize> {
    if machine.limit() > MOST_KEPT {
        Some(machine.kept_steps())
    } else {
        None
    }
}

/// Writes how much can be taken back, and that there may be older steps where the history was full once.
pub fn show_recording<M: RecordedMachine, O: AnswerWriter + Drop>(
    was_full: bool,
    session: &Session<M>,
    page: &mut Page<O>,
) {
    let machine = session.machine();
    if machine.limit() > MOST_KEPT {
        return show_whole_recording(machine, page);
    }
    if !was_full {
        page.put(b"all is recorded: ");
    }
    put_counted(
        machine.kept(),
        b" step or change",
        b" steps and changes",
        page,
    );
    page.put(b" can be taken back, of ");
    page.put_number(machine.limit() as i128);
    page.put(b" at most");
    if was_full {
        page.put(b"; older ones, if there were any, are gone");
    }
    page.put(b" (`set record full insn-number-max N` changes that)\n");
}

/// Writes how many steps and changes were made, of which all can be taken back.
fn show_whole_recording<M: RecordedMachine, O: AnswerWriter + Drop>(
    machine: &M,
    page: &mut Page<O>,
) {
    let steps = machine.kept_steps();
    page.put(b"all is recorded: ");
    put_counted(steps, b" step", b" steps", page);
    page.put(b" and ");
    put_counted(
        machine.kept().saturating_sub(steps),
        b" change",
        b" changes",
        page,
    );
    page.put(
        b" were made, and all can be taken back (`set record full insn-number-max N` limits that)\n",
    );
}

/// Writes that the run cannot be taken back to its start.
pub fn tell_not_whole<O: AnswerWriter + Drop>(page: &mut Page<O>) {
    page.put(
        b"Nothing is done: a limit is set to what can be taken back, so the start and the number of a step are not known; `info record` tells more.\n",
    );
}

/// Writes that the run has ended before a step, and how many it has.
pub fn tell_no_such_step<M: RecordedMachine, O: AnswerWriter + Drop>(
    step: u64,
    session: &Session<M>,
    page: &mut Page<O>,
) {
    page.put(b"step ");
    page.put_number(i128::from(step));
    page.put(b" is never reached: the run has ");
    put_counted(session.machine().kept_steps(), b" step", b" steps", page);
    page.put(b"\n");
}

/// Writes what may follow a word, and the line with a mark under what is wrong.
pub fn tell_usage<O: AnswerWriter + Drop>(usage: &[u8], line: &[u8], page: &mut Page<O>) {
    page.put(b"C1 BadCommand: ");
    page.put(usage);
    page.put(b"\n");
    put_refused_part(line, page);
}

/// Writes that a moment is noted: its number, and how many steps lead to it.
pub fn tell_checkpoint<O: AnswerWriter + Drop>(number: u32, step: u64, page: &mut Page<O>) {
    page.put(b"checkpoint ");
    page.put_number(i128::from(number));
    page.put(b" at step ");
    page.put_number(i128::from(step));
    page.put(b"\n");
}

/// Writes a moment that is noted: its number, and how many steps lead to it.
pub fn show_checkpoint<O: AnswerWriter + Drop>(number: u32, step: u64, page: &mut Page<O>)
    ensures { Puts (spec.checkpoint_text number step) page.old.has_failed page.new.has_failed (O.written page.old.writer) (O.written page.new.writer) }
{
    page.put_number(i128::from(number));
    page.put(b"  step ");
    page.put_number(i128::from(step));
    page.put(b"\n");
}
