//! Why commands are refused.
ghost use Rattle.std.specs.Prelude.{◌≡◌, ◌<◌, None, false};
ghost use Rattle.undo_log.specs.History.{steps_in};
ghost use Rattle.gang_model.specs.Debugger.Debugger as model;
ghost use Rattle.gang_model.specs.Debugger.Debugger.{Debugger, Setting, backward_refusal, bad_part, forward_refusal, kept_steps, now};
ghost use Rattle.debug_answers.specs.Meanings.{IsInside};
ghost use Rattle.debug_session.specs.Moves.{refusal_option};
ghost use Rattle.debug_session.specs.Sessions.{bare};

use crate::places::depth_of;
use debug_answers::Refusal;
use debug_traits::{RecordedMachine, Shown};
use gang_types::Rate;

/// Why a forward command is refused, if it is; some need a frame below.
pub(crate) fn forward_refusal<M: RecordedMachine>(machine: &M, needs_frame: bool) -> Option<Refusal>
    ensures { (s : Setting) (d : Debugger) → M.stands machine.now s (bare d) → refusal_option result ≡ forward_refusal needs_frame (now s d) }
{
    let Some(position) = machine.position() else {
        return Some(Refusal::Ended);
    };
    if needs_frame && position.depth == 1 {
        Some(Refusal::Outermost)
    } else {
        None
    }
}

/// Why a backward command is refused, if it is; some need a frame below.
pub(crate) fn backward_refusal<M: RecordedMachine>(
    machine: &M,
    needs_frame: bool,
) -> Option<Refusal>
    ensures refusal { (s : Setting) (d : Debugger) → M.stands machine.now s (bare d) → refusal_option result ≡ backward_refusal (kept_steps d) needs_frame (now s d) }
    ensures kept { result ≡ None → 0 < steps_in (M.history machine.now).past }
{
    if machine.kept_steps() == 0 {
        Some(Refusal::NoHistory)
    } else if needs_frame && depth(machine) == 1 {
        Some(Refusal::Outermost)
    } else {
        None
    }
}

/// How many frames there are; a program that has ended counts as depth 1.
pub(crate) fn depth<M: RecordedMachine>(machine: &M) -> usize
    ensures { (s : Setting) (d : Debugger) → M.stands machine.now s (bare d) → result ≡ model.depth (now s d) }
{
    depth_of(machine.position())
}

/// Why a part of a variable cannot be had, if it cannot: a whole array is only shown.
pub(crate) fn part_refusal(shown: Shown, at: Option<u32>, whole_array: bool) -> Option<Refusal>
    ensures refused { refusal_option result ≡ bad_part whole_array at shown.is_array shown.rate shown.count }
    ensures inside { result ≡ None → IsInside at shown.count }
{
    match at {
        None if shown.is_array && !whole_array => Some(Refusal::NoSuchName),
        None => None,
        Some(_) if !shown.is_array && shown.rate == Rate::Uniform => Some(Refusal::NoSuchName),
        Some(index) if index as usize >= shown.count => Some(Refusal::OutOfRange),
        Some(_) => None,
    }
}
