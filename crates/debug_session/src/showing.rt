//! What is printed.
ghost use Rattle.std.specs.Prelude.{◌≡◌};
ghost use Rattle.gang_model.specs.Debugger.Debugger.{Debugger, Setting, do_print};
ghost use Rattle.debug_commands.specs.Views.{target_view};
ghost use Rattle.debug_session.specs.Moves.{Done};
ghost use Rattle.debug_session.specs.Sessions.{bare};

use crate::refusing::part_refusal;
use debug_answers::{Answer, Refusal};
use debug_commands::Target;
use debug_traits::RecordedMachine;

/// Shows a scalar, a lane of one, an array or an element.
pub(crate) fn print<'a, M: RecordedMachine>(machine: &M, target: Target<'a>) -> Answer<'a>
    ensures { (s : Setting) (d : Debugger) → M.stands machine.now s (bare d)
        → Done M.stands s d (do_print s (target_view target.entry) d) result machine.now }
{
    let Some(shown) = machine.find(target.name) else {
        return Answer::Refused(Refusal::NoSuchName);
    };
    match part_refusal(shown, target.at, true) {
        Some(refusal) => Answer::Refused(refusal),
        None => Answer::Shows { target, shown },
    }
}
