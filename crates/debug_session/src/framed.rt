//! Values that are set in one of the frames.
ghost use Rattle.std.specs.Prelude.{◌≡◌, true};
ghost use Rattle.gang_model.specs.Debugger.Debugger.{Debugger, DoSetIn, Setting};
ghost use Rattle.debug_commands.specs.Views.{target_view};
ghost use Rattle.debug_session.specs.Moves.{MayBeDone};
ghost use Rattle.debug_session.specs.Sessions.{bare, is_refused};

use crate::changing::set_refusal;
use debug_answers::{Answer, Refusal};
use debug_commands::Target;
use debug_traits::FramedMachine;
use gang_types::wrap;

/// Sets a scalar, a lane of one or an element in the frame at a depth. A machine that notes what is set may want for memory.
pub(crate) fn set_in<'a, M: FramedMachine>(
    machine: &mut M,
    depth: usize,
    target: Target<'a>,
    number: i128,
) -> Answer<'a>
    ensures replied { (s : Setting) (d : Debugger) → M.stands machine.old s (bare d)
        → MayBeDone M.may_want M.stands s d (DoSetIn depth (target_view target.entry) number) result machine.new }
    ensures refused { is_refused result ≡ true → M.history machine.new ≡ M.history machine.old }
    ensures moves { M.moves machine.new ≡ M.moves machine.old }
{
    let Some(shown) = machine.find_at(depth, target.name) else {
        return Answer::Refused(Refusal::NoSuchName);
    };
    if let Some(refusal) = set_refusal(shown, target.at, number) {
        return Answer::Refused(refusal);
    }
    match machine.poke_at(depth, shown, target.at, wrap(shown.value_type, number)) {
        Ok(()) => Answer::Silent,
        Err(_) => Answer::Refused(Refusal::Memory),
    }
}
