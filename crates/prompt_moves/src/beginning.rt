//! `run` and `start`: the program begins, or begins anew.
ghost use Rattle.std.specs.Prelude.{◌≡◌, [], if◌then◌else◌};
ghost use Rattle.gang_model.specs.Debugger.Debugger.{Debugger, Setting};
ghost use Rattle.command_lists.specs.Lists.{HasDone};
ghost use Rattle.debug_session.specs.Sessions.{StandsFor};
ghost use Rattle.prompt_lines.specs.Words.{is_alone};
ghost use Rattle.prompt_scenes.specs.Holding.{held};
ghost use Rattle.prompt_scenes.specs.Changes as changes;
ghost use Rattle.prompt_moves.specs.Beginning as beginning;
ghost use Rattle.prompt_moves.specs.Breakpoints as breakpoints;
ghost use Rattle.prompt_moves.specs.Moments as moments;

use crate::moments::repeat;
use crate::pieces::stop_here;
use crate::turning::{do_own, follow, show_displays};
use debug_answers::Answer;
use debug_commands::Command;
use debug_session::Session;
use debug_traits::{AnswerWriter, RecordedMachine};
use frame_expressions::ExpressionMachine;
use prompt_lines::is_alone;
use prompt_scenes::{Holding, Scene};
use prompt_texts::{Before, Page, show_here, tell_move, tell_not_whole, tell_unknown};

/// The largest limit that may be set to how many events can be taken back.
const LARGEST_LIMIT: usize = 65_536;

/// What is said where the program begins anew.
pub const ANEW: &[u8] = b"The program begins anew; what `set var` set is gone.\n";

/// Begins the program, or, where it has begun, takes everything back and begins it anew.
pub fn run<M: ExpressionMachine, O: AnswerWriter + Drop>(
    text: &[u8],
    holding: &mut Holding,
    scene: Scene<'_>,
    session: &mut Session<M>,
    page: &mut Page<O>,
)
    ensures { (s : Setting) (d : Debugger) → StandsFor M.stands session.old s d → s.limit ≡ scene.entry.most_steps
        → HasDone M.stands s (if is_alone text.now then beginning.run_by s d (held holding.old) else []) d session.new
        × (held holding.new ≡ (if is_alone text.now then beginning.after_run_by s d (held holding.old) else held holding.old)) }
{
    if is_alone(text) {
        run_alone(holding, scene, session, page);
    } else {
        tell_unknown(scene.line, page);
    }
}

/// Begins the program, or begins it anew.
fn run_alone<M: ExpressionMachine, O: AnswerWriter + Drop>(
    holding: &mut Holding,
    scene: Scene<'_>,
    session: &mut Session<M>,
    page: &mut Page<O>,
)
    ensures { (s : Setting) (d : Debugger) → StandsFor M.stands session.old s d → s.limit ≡ scene.entry.most_steps
        → HasDone M.stands s (beginning.run_by s d (held holding.old)) d session.new
        × (held holding.new ≡ beginning.after_run_by s d (held holding.old)) }
{
    if !holding.has_begun() {
        run_from(stop_here(session), holding, scene, session, page);
    } else if is_whole(session) {
        run_anew(holding, scene, session, page);
    } else {
        tell_not_whole(page);
    }
}

/// Takes everything back, and begins the program as at first.
fn run_anew<M: ExpressionMachine, O: AnswerWriter + Drop>(
    holding: &mut Holding,
    scene: Scene<'_>,
    session: &mut Session<M>,
    page: &mut Page<O>,
)
    ensures { (s : Setting) (d : Debugger) → StandsFor M.stands session.old s d → s.limit ≡ scene.entry.most_steps
        → HasDone M.stands s (beginning.ran_anew s d (held holding.old)) d session.new
        × (held holding.new ≡ beginning.after_run s (moments.at_first d) (held holding.old) (breakpoints.stop_here s (moments.at_first d))) }
{
    page.put(ANEW);
    take_all_back(session);
    run_from(stop_here(session), holding, scene, session, page);
}

/// Stops at once at a breakpoint where the program stands already, if there is one, else goes on.
fn run_from<M: ExpressionMachine, O: AnswerWriter + Drop>(
    at: Option<u32>,
    holding: &mut Holding,
    scene: Scene<'_>,
    session: &mut Session<M>,
    page: &mut Page<O>,
)
    ensures { (s : Setting) (d : Debugger) → StandsFor M.stands session.old s d → s.limit ≡ scene.entry.most_steps
        → HasDone M.stands s (beginning.ran s d (held holding.old) at) d session.new
        × (held holding.new ≡ beginning.after_run s d (held holding.old) at) }
{
    match at {
        None => do_own(Command::Continue, holding, scene, session, page),
        Some(number) => {
            let answer = Answer::AtBreakpoint(number);
            let before = Before::note(session.machine());
            tell_move(&answer, scene.line, &before, scene.source, session, page);
            follow(&answer, holding, scene, session, page);
        }
    }
}

/// Shows where the program begins: where it has begun, everything is taken back first.
pub fn start<M: ExpressionMachine, O: AnswerWriter + Drop>(
    text: &[u8],
    holding: &mut Holding,
    scene: Scene<'_>,
    session: &mut Session<M>,
    page: &mut Page<O>,
)
    ensures { (s : Setting) (d : Debugger) → StandsFor M.stands session.old s d
        → HasDone M.stands s (if is_alone text.now then beginning.start_by d (held holding.old) else []) d session.new
        × (held holding.new ≡ (if is_alone text.now then beginning.after_start d (held holding.old) else held holding.old)) }
{
    if is_alone(text) {
        start_alone(holding, scene, session, page);
    } else {
        tell_unknown(scene.line, page);
    }
}

/// Shows where the program begins, and takes it back there.
fn start_alone<M: ExpressionMachine, O: AnswerWriter + Drop>(
    holding: &mut Holding,
    scene: Scene<'_>,
    session: &mut Session<M>,
    page: &mut Page<O>,
)
    ensures { (s : Setting) (d : Debugger) → StandsFor M.stands session.old s d
        → HasDone M.stands s (beginning.start_by d (held holding.old)) d session.new
        × (held holding.new ≡ beginning.after_start d (held holding.old)) }
{
    if !holding.has_begun() {
        show_here(scene.source, session, page);
    } else if is_whole(session) {
        start_anew(holding, scene, session, page);
    } else {
        tell_not_whole(page);
    }
}

/// Takes everything back, and shows where the program stands then.
fn start_anew<M: ExpressionMachine, O: AnswerWriter + Drop>(
    holding: &mut Holding,
    scene: Scene<'_>,
    session: &mut Session<M>,
    page: &mut Page<O>,
)
    ensures done { (s : Setting) (d : Debugger) → StandsFor M.stands session.old s d
        → HasDone M.stands s (beginning.started_anew d (held holding.old)) d session.new }
    ensures held { held holding.new ≡ changes.not_begun (held holding.old) }
{
    page.put(ANEW);
    take_all_back(session);
    show_here(scene.source, session, page);
    show_displays(holding.displays(), scene, session, page);
    holding.forget_start();
}

/// Whether the run can be taken back to its start: no limit was set, and the history is not full.
pub fn is_whole<M: RecordedMachine>(session: &Session<M>) -> bool
    ensures { (s : Setting) (d : Debugger) → StandsFor M.stands session.now s d → result ≡ moments.is_whole d }
{
    let machine = session.machine();
    machine.limit() > LARGEST_LIMIT && machine.kept() < machine.limit()
}

/// Takes all events back that can be: a breakpoint or a watch stops none of that.
pub fn take_all_back<M: RecordedMachine>(session: &mut Session<M>)
    ensures { (s : Setting) (d : Debugger) → StandsFor M.stands session.old s d → StandsFor M.stands session.new s (moments.at_first d) }
{
    repeat(Command::Undo, session.machine().kept() as u64, session);
}
