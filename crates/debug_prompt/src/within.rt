//! The frame within which a line goes back, and up to which depth frames are known to be those of before.
ghost use Rattle.std.specs.Prelude.{◌≡◌};
ghost use Rattle.gang_model.specs.Debugger.Debugger as debugger;
ghost use Rattle.gang_model.specs.Debugger.Debugger.{Debugger, Setting};
ghost use Rattle.gang_model.specs.Texts.CommandText.{command_of};
ghost use Rattle.debug_commands.specs.Views.{target_view};
ghost use Rattle.debug_session.specs.Sessions.{StandsFor};
ghost use Rattle.prompt_scenes.specs.Holding.{held};
ghost use Rattle.prompt_scenes.specs.Readings as readings;
ghost use Rattle.debug_prompt.specs.Lines as lines;

use debug_commands::Target;
use debug_session::Session;
use debug_traits::{FramedMachine, RecordedMachine};
use prompt_lines::{Kind, PromptLine};
use prompt_scenes::{Holding, depth, known, local_named, selected_depth, watch_of};

/// The depth of the frame within which a line goes back, if it does.
pub(crate) fn depth_within<M: FramedMachine>(
    line: &PromptLine,
    holding: &Holding,
    session: &Session<M>,
) -> Option<usize>
    ensures { (s : Setting) (d : Debugger) → StandsFor M.stands session.now s d
        → result ≡ lines.depth_within s d (held holding.now) line.now.kind (readings.watch_of (command_of line.now.text.items)) }
{
    match line.kind {
        Kind::Last => depth_named(watch_of(line.text.as_slice())?, holding, session),
        _ => None,
    }
}

/// The depth of the frame that is selected, where a target names a variable of it.
fn depth_named<M: FramedMachine>(
    target: Target<'_>,
    holding: &Holding,
    session: &Session<M>,
) -> Option<usize>
    ensures { (s : Setting) (d : Debugger) → StandsFor M.stands session.now s d
        → result ≡ lines.depth_named s d (held holding.now) (target_view target.entry) }
{
    let depth = selected_depth(holding, session);
    match local_named(target, depth, session.machine()) {
        Some(_) => Some(depth),
        None => None,
    }
}

/// How many steps can be taken back.
pub(crate) fn kept_steps<M: RecordedMachine>(session: &Session<M>) -> usize
    ensures { (s : Setting) (d : Debugger) → StandsFor M.stands session.now s d → result ≡ debugger.kept_steps d }
{
    session.machine().kept_steps()
}

/// The depth up to which frames are known to be those of before, after a line before which so many steps could be taken back: it went back
/// within a frame or not, or led nowhere.
pub(crate) fn known_now<M: RecordedMachine>(
    within: Option<usize>,
    steps: usize,
    line: &PromptLine,
    session: &Session<M>,
) -> usize
    ensures { (s : Setting) (d : Debugger) → StandsFor M.stands session.now s d
        → result ≡ lines.known_now s within steps line.now.kind line.now.text.items d }
{
    if has_stayed(line.kind, steps, session) {
        depth(session)
    } else {
        known_within(within, line, depth(session))
    }
}

/// Whether a line that leads to another moment has led nowhere: as many steps can be taken back as before, and none was dropped.
fn has_stayed<M: RecordedMachine>(kind: Kind, steps: usize, session: &Session<M>) -> bool
    ensures { (s : Setting) (d : Debugger) → StandsFor M.stands session.now s d → result ≡ lines.has_stayed kind steps d }
{
    leads_elsewhere(kind)
        && kept_steps(session) == steps
        && session.machine().kept() < session.machine().limit()
}

/// Whether a line of this kind leads to another moment, over any number of moves.
fn leads_elsewhere(kind: Kind) -> bool
    ensures { result ≡ lines.leads_elsewhere kind }
{
    matches!(kind, Kind::Until | Kind::Goto | Kind::Restart | Kind::Last)
}

/// The same after a line that may have led elsewhere, and led to this depth.
fn known_within(within: Option<usize>, line: &PromptLine, depth: usize) -> usize
    ensures { result ≡ lines.known_within within line.now.kind line.now.text.items depth }
{
    match within {
        Some(within) => within.min(depth),
        None => known(line, depth),
    }
}
