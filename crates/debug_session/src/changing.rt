//! Values that are set, events that are taken back, and how many can be.
ghost use Rattle.std.specs.Prelude.{◌≡◌, suc, true, None};
ghost use Rattle.gang_model.specs.Debugger.Debugger.{Debugger, DoSet, DoSetHistory, Setting, do_undo, is_value};
ghost use Rattle.debug_commands.specs.Views.{target_view};
ghost use Rattle.debug_answers.specs.Meanings.{IsInside};
ghost use Rattle.debug_session.specs.Moves.{Done, MayBeDone, refusal_option, set_refusal};
ghost use Rattle.debug_session.specs.Sessions.{bare, is_refused};

use crate::refusing::part_refusal;
use debug_answers::{Answer, Refusal};
use debug_commands::Target;
use debug_traits::{RecordedMachine, Shown};
use gang_types::{IntType, value, wrap};
use std::alloc::AllocError;
use undo_log::Undone;

/// Sets a scalar, a lane of one or an element. A machine that notes what is set may want for memory.
pub(crate) fn set<'a, M: RecordedMachine>(
    machine: &mut M,
    target: Target<'a>,
    number: i128,
) -> Answer<'a>
    ensures replied { (s : Setting) (d : Debugger) → M.stands machine.old s (bare d)
        → MayBeDone M.may_want M.stands s d (DoSet (target_view target.entry) number) result machine.new }
    ensures refused { is_refused result ≡ true → M.history machine.new ≡ M.history machine.old }
    ensures moves { M.moves machine.new ≡ M.moves machine.old }
{
    let Some(shown) = machine.find(target.name) else {
        return Answer::Refused(Refusal::NoSuchName);
    };
    if let Some(refusal) = set_refusal(shown, target.at, number) {
        return Answer::Refused(refusal);
    }
    match machine.poke(shown, target.at, wrap(shown.value_type, number)) {
        Ok(()) => Answer::Shows { target, shown },
        Err(AllocError) => Answer::Refused(Refusal::Memory),
    }
}

/// Why a value is not set, if it is not: there is no such part, the type has no such value, or the variable is constant.
pub(crate) fn set_refusal(shown: Shown, at: Option<u32>, number: i128) -> Option<Refusal>
    ensures refused { refusal_option result ≡ set_refusal at shown number }
    ensures inside { result ≡ None → IsInside at shown.count }
{
    if let Some(refusal) = part_refusal(shown, at, false) {
        return Some(refusal);
    }
    if !is_value(shown.value_type, number) {
        return Some(Refusal::OutOfRange);
    }
    if shown.is_constant {
        return Some(Refusal::Constant);
    }
    None
}

/// Whether a type has this value.
fn is_value(value_type: IntType, number: i128) -> bool
    ensures { result ≡ is_value value_type number }
{
    value(value_type, wrap(value_type, number)) == number
}

/// Takes the last step or poke back.
pub(crate) fn undo<'a, M: RecordedMachine>(machine: &mut M) -> Answer<'a>
    ensures replied { (s : Setting) (d : Debugger) → M.stands machine.old s (bare d)
        → Done M.stands s d (do_undo d) result machine.new }
    ensures refused { is_refused result ≡ true → M.history machine.new ≡ M.history machine.old }
    ensures moves { M.moves machine.new ≡ suc (M.moves machine.old) }
{
    match machine.undo() {
        Err(_) => Answer::Refused(Refusal::NoHistory),
        Ok(Undone::Step) => Answer::UndoneStep,
        Ok(Undone::Poke) => Answer::UndonePoke,
    }
}

/// The most events that a history can keep.
const MOST_KEPT: u32 = 65_536;

/// Changes how many events can be taken back. More than before may want for memory.
pub(crate) fn set_history<'a, M: RecordedMachine>(machine: &mut M, limit: u32) -> Answer<'a>
    ensures replied { (s : Setting) (d : Debugger) → M.stands machine.old s (bare d)
        → MayBeDone M.may_want M.stands s d (DoSetHistory limit) result machine.new }
    ensures refused { is_refused result ≡ true → M.history machine.new ≡ M.history machine.old }
    ensures moves { M.moves machine.new ≡ M.moves machine.old }
{
    if limit == 0 || limit > MOST_KEPT {
        return Answer::Refused(Refusal::OutOfRange);
    }
    match machine.set_limit(limit as usize) {
        Ok(()) => Answer::KeepsHistory(limit),
        Err(_) => Answer::Refused(Refusal::Memory),
    }
}
