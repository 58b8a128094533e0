//! The number of a watch of a variable of a frame: it is taken from the debugger.
ghost use Rattle.std.specs.Prelude.{◌≡◌, Some};
ghost use Rattle.gang_model.specs.Debugger.Debugger.{Debugger, DoBreak, Setting, do_command};
ghost use Rattle.command_lists.specs.Lists.{HasDone};
ghost use Rattle.debug_session.specs.Sessions.{StandsFor};
ghost use Rattle.prompt_scenes.specs.Readings as readings;
ghost use Rattle.prompt_stops.specs.Breaking as breaking;

use debug_commands::Command;
use debug_session::Session;
use debug_traits::{AnswerWriter, RecordedMachine};
use prompt_scenes::{Scene, made_number};
use prompt_texts::{Page, tell};

/// Takes the next number of breakpoints and watches, if one is left: makes a breakpoint, and deletes it at once.
pub(crate) fn take_number<M: RecordedMachine, O: AnswerWriter + Drop>(
    scene: Scene<'_>,
    session: &mut Session<M>,
    page: &mut Page<O>,
) -> Option<u32>
    ensures { (s : Setting) (d : Debugger) → StandsFor M.stands session.old s d
        → HasDone M.stands s (breaking.numbered s d) d session.new × (result ≡ readings.made_number (do_command s (DoBreak 1) d).answer) }
{
    let answer = session.do_command(Command::Break(1));
    match made_number(&answer) {
        Some(number) => {
            delete_made(number, session);
            Some(number)
        }
        None => {
            tell(&answer, scene.line, scene.source, session, page);
            None
        }
    }
}

/// Deletes a breakpoint that was made.
fn delete_made<M: RecordedMachine>(number: u32, session: &mut Session<M>)
    ensures { (s : Setting) (d : Debugger) → StandsFor M.stands session.old s d → HasDone M.stands s (breaking.cleared (Some number)) d session.new }
{
    let _ = session.do_command(Command::Delete(Some(number)));
}
