//! Single steps that are taken back, event by event.
ghost use Rattle.std.specs.Prelude.{◌≡◌, ◌<◌, ◌≤◌, replicate};
ghost use Rattle.gang_model.specs.Debugger.Debugger.{Debugger, DoReverseStep, Setting, kept_steps, taken_back};
ghost use Rattle.debug_session.specs.Sessions.{StandsFor};
ghost use Rattle.prompt_moves.specs.Moments as moments;

use debug_commands::Command;
use debug_session::Session;
use debug_traits::RecordedMachine;
use prompt_scenes::is_undone_step;

/// Takes so many steps back, one after another, with the values that were set since each. That leads where single steps back do, each of
/// which looks at where the program stands, and at each breakpoint and watch.
pub(crate) fn take_steps_back<M: RecordedMachine>(count: u64, session: &mut Session<M>)
    ensures { (s : Setting) (d : Debugger) → StandsFor M.stands session.old s d → count ≤ kept_steps d
        → StandsFor M.stands session.new s (moments.led s (replicate count (DoReverseStep 1)) d) }
{
    let mut left = count;
    for _taken in 0..session.machine().kept() {
        if left == 0 {
            return;
        }
        left = take_event_back(left, session);
    }
}

/// Takes the last event back, where so many steps are to be: how many are left.
fn take_event_back<M: RecordedMachine>(left: u64, session: &mut Session<M>) -> u64
    requires { 0 < left }
    ensures { (s : Setting) (d : Debugger) → StandsFor M.stands session.old s d → left ≤ kept_steps d
        → StandsFor M.stands session.new s (taken_back d)
        × (moments.led s (replicate left (DoReverseStep 1)) d ≡ moments.led s (replicate result (DoReverseStep 1)) (taken_back d))
        × (result ≤ kept_steps (taken_back d)) }
{
    let answer = session.do_command(Command::Undo);
    if is_undone_step(&answer) {
        return left - 1;
    }
    left
}
