//! Breakpoints and watches that are made and deleted.
ghost use Rattle.std.specs.Prelude.{◌≡◌, true};
ghost use Rattle.gang_model.specs.Debugger.Debugger.{Debugger, Setting, do_break, do_delete, do_watch};
ghost use Rattle.debug_answers.specs.Meanings.{AreStops};
ghost use Rattle.debug_commands.specs.Views.{target_view};
ghost use Rattle.debug_session.specs.Tables.{Listed};
ghost use Rattle.debug_session.specs.Sessions.{bare, is_refused};

use crate::refusing::part_refusal;
use crate::table::StopTable;
use debug_answers::{Answer, Refusal, Stop};
use debug_commands::Target;
use debug_traits::RecordedMachine;

/// Makes a breakpoint on the first line from this one on that has a place.
pub(crate) fn set_breakpoint<'a, M: RecordedMachine>(
    machine: &M,
    stops: &mut StopTable,
    line: u32,
) -> Answer<'a>
    ensures replied { (s : Setting) (d : Debugger) → M.stands machine.now s (bare d) → AreStops s stops.old.items d.stops → d.next ≡ stops.old.next
        → Listed s d (do_break s line d) result stops.new }
    ensures refused { is_refused result ≡ true → stops.new ≡ stops.old }
{
    match machine.line_from(line) {
        None => Answer::Refused(Refusal::NoLine),
        Some(line) => match stops.add(Stop::Line(line)) {
            None => Answer::Refused(Refusal::TableFull),
            Some(number) => Answer::BreaksAt { number, line },
        },
    }
}

/// Watches a file-scope scalar, a lane of one or an element.
pub(crate) fn set_watch<'a, M: RecordedMachine>(
    machine: &M,
    stops: &mut StopTable,
    target: Target<'a>,
) -> Answer<'a>
    ensures replied { (s : Setting) (d : Debugger) → M.stands machine.now s (bare d) → AreStops s stops.old.items d.stops → d.next ≡ stops.old.next
        → Listed s d (do_watch s (target_view target.entry) d) result stops.new }
    ensures refused { is_refused result ≡ true → stops.new ≡ stops.old }
{
    let Some(variable) = machine.find_in_file(target.name) else {
        return Answer::Refused(Refusal::NoSuchName);
    };
    let Some(named) = machine.file_variable(variable) else {
        return Answer::Refused(Refusal::NoSuchName);
    };
    if let Some(refusal) = part_refusal(named.shown, target.at, false) {
        return Answer::Refused(refusal);
    }
    match stops.add(Stop::Watch {
        variable,
        at: target.at,
    }) {
        None => Answer::Refused(Refusal::TableFull),
        Some(number) => Answer::Watches { number, target },
    }
}

/// Deletes a breakpoint or watch, or all.
pub(crate) fn delete<'a>(stops: &mut StopTable, number: Option<u32>) -> Answer<'a>
    ensures replied { (s : Setting) (d : Debugger) → AreStops s stops.old.items d.stops → d.next ≡ stops.old.next
        → Listed s d (do_delete number d) result stops.new }
    ensures refused { is_refused result ≡ true → stops.new ≡ stops.old }
{
    match number {
        None => stops.clear(),
        Some(number) if stops.has(number) => stops.remove(number),
        Some(_) => return Answer::Refused(Refusal::NoSuchNumber),
    }
    Answer::Deleted(number)
}
