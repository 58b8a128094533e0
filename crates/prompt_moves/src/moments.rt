//! Moments of the run, by how many steps lead to them.
ghost use Rattle.std.specs.Prelude.{◌≡◌, ℕ, ◌≤◌, true, flat_map, map, replicate, if◌then◌else◌};
ghost use Rattle.gang_model.specs.Debugger.Debugger.{Debugger, DoStep, DoReverseStep, Setting, kept_steps};
ghost use Rattle.gang_model.specs.Texts.CommandText.{command_of};
ghost use Rattle.command_lists.specs.Lists.{HasDone};
ghost use Rattle.debug_commands.specs.Views.{command_view};
ghost use Rattle.debug_session.specs.Sessions.{StandsFor};
ghost use Rattle.prompt_lines.specs.Words.{is_alone};
ghost use Rattle.prompt_texts.specs.Shown.{Puts};
ghost use Rattle.prompt_scenes.specs.Holding.{held, noted_of};
ghost use Rattle.prompt_scenes.specs.Readings as readings;
ghost use Rattle.prompt_scenes.specs.Changes as changes;
ghost use Rattle.prompt_moves.specs.Noted as noted;
ghost use Rattle.prompt_moves.specs.Moments as moments;

use crate::beginning::is_whole;
use crate::going_back::take_steps_back;
use crate::turning::show_displays;
use debug_answers::Answer;
use debug_commands::Command;
use debug_session::Session;
use debug_traits::{AnswerWriter, RecordedMachine};
use frame_expressions::ExpressionMachine;
use prompt_lines::is_alone;
use prompt_scenes::{Checkpoint, Holding, Scene, delete_of, index_named, is_here, step_named};
use prompt_texts::{
    Before, Page, show_checkpoint, tell_checkpoint, tell_move, tell_no_such_step, tell_not_whole,
    tell_usage,
};

/// What may follow `goto`.
const GOTO: &[u8] =
    b"A number of steps follows `goto`, as `goto 4711`: the moment after so many steps of the run.";

/// What may follow `restart`.
const RESTART: &[u8] =
    b"The number of a checkpoint follows `restart`; `info checkpoints` lists them.";

/// What may follow `checkpoint`.
const CHECKPOINT: &[u8] =
    b"`checkpoint` stands alone: it notes the moment, and `restart N` goes there again.";

/// What may follow `delete checkpoint`.
const FORGET: &[u8] = b"The number of a checkpoint may follow `delete checkpoint`.";

/// Why no moment is noted any more.
const FULL: &[u8] =
    b"CheckpointsFull: 64 checkpoints are there; `delete checkpoint N` makes room.\n";

/// Goes to the moment after so many steps.
pub fn go_to_step<M: ExpressionMachine, O: AnswerWriter + Drop>(
    text: &[u8],
    holding: &mut Holding,
    scene: Scene<'_>,
    session: &mut Session<M>,
    page: &mut Page<O>,
)
    ensures { (s : Setting) (d : Debugger) → StandsFor M.stands session.old s d
        → HasDone M.stands s (noted.go_by s d (held holding.old) (readings.step_named text.now)) d session.new
        × (held holding.new ≡ noted.after_go d (held holding.old) (readings.step_named text.now)) }
{
    match step_named(text) {
        Some(step) => go_if_whole(step, holding, scene, session, page),
        None => tell_usage(GOTO, scene.line, page),
    }
}

/// Goes to a moment that was noted.
pub fn restart<M: ExpressionMachine, O: AnswerWriter + Drop>(
    text: &[u8],
    holding: &mut Holding,
    scene: Scene<'_>,
    session: &mut Session<M>,
    page: &mut Page<O>,
)
    ensures { (s : Setting) (d : Debugger) → StandsFor M.stands session.old s d
        → HasDone M.stands s (noted.go_by s d (held holding.old) (changes.step_noted (held holding.old) (readings.index_named text.now))) d session.new
        × (held holding.new ≡ noted.after_go d (held holding.old) (changes.step_noted (held holding.old) (readings.index_named text.now))) }
{
    match step_noted(holding, index_named(text)) {
        Some(step) => go_if_whole(step, holding, scene, session, page),
        None => tell_usage(RESTART, scene.line, page),
    }
}

/// How many steps lead to the moment of a number, where there is one.
fn step_noted(holding: &Holding, number: Option<u32>) -> Option<u64>
    ensures { result ≡ changes.step_noted (held holding.now) number }
{
    match number {
        Some(number) => holding.checkpoint(number),
        None => None,
    }
}

/// Goes to the moment after so many steps, where their number is known.
fn go_if_whole<M: ExpressionMachine, O: AnswerWriter + Drop>(
    step: u64,
    holding: &mut Holding,
    scene: Scene<'_>,
    session: &mut Session<M>,
    page: &mut Page<O>,
)
    ensures { (s : Setting) (d : Debugger) → StandsFor M.stands session.old s d
        → HasDone M.stands s (noted.go_by s d (held holding.old) (Some step)) d session.new
        × (held holding.new ≡ noted.after_go d (held holding.old) (Some step)) }
{
    if is_whole(session) {
        go_there(step, holding, scene, session, page);
        holding.start();
    } else {
        tell_not_whole(page);
    }
}

/// Goes to the moment after so many steps, and shows what is there.
fn go_there<M: ExpressionMachine, O: AnswerWriter + Drop>(
    step: u64,
    holding: &Holding,
    scene: Scene<'_>,
    session: &mut Session<M>,
    page: &mut Page<O>,
)
    ensures { (s : Setting) (d : Debugger) → StandsFor M.stands session.old s d
        → HasDone M.stands s (noted.went_to step s d (held holding.now)) d session.new }
{
    let before = Before::note(session.machine());
    let answer = move_to(step, session);
    if session.machine().kept_steps() as u64 != step {
        tell_no_such_step(step, session, page);
    }
    tell_move(&answer, scene.line, &before, scene.source, session, page);
    show_displays(holding.displays(), scene, session, page);
}

/// Moves step by step to the moment after so many steps. Says what the last step came to, where it was made.
pub fn move_to<'a, M: RecordedMachine>(step: u64, session: &mut Session<M>) -> Answer<'a>
    ensures { (s : Setting) (d : Debugger) → StandsFor M.stands session.old s d → StandsFor M.stands session.new s (moments.led s (moments.to_moment step s d) d) }
{
    let here = session.machine().kept_steps() as u64;
    if step <= here {
        take_steps_back(here - step, session);
        return Answer::Here;
    }
    match step_on(step - here, session) {
        Answer::Refused(_) => Answer::Here,
        answer => answer,
    }
}

/// Makes single steps, so many, up to the first that is not made. Says what the last one came to.
pub fn step_on<'a, M: RecordedMachine>(count: u64, session: &mut Session<M>) -> Answer<'a>
    ensures { (s : Setting) (d : Debugger) → StandsFor M.stands session.old s d → StandsFor M.stands session.new s (moments.led s (moments.steps_on count s d) d) }
{
    let mut left = count;
    while left > 0 {
        let answer = session.do_command(Command::Step(1));
        if !is_here(&answer) {
            return answer;
        }
        left -= 1;
    }
    Answer::Here
}

/// Does a command that moves, so often.
pub(crate) fn repeat<M: RecordedMachine>(command: Command<'_>, count: u64, session: &mut Session<M>)
    requires { readings.moves (command_view command) ≡ true }
    ensures { (s : Setting) (d : Debugger) → StandsFor M.stands session.old s d → StandsFor M.stands session.new s (moments.led s (replicate count (command_view command.entry)) d) }
{
    let mut left = count;
    while left > 0 {
        let _ = session.do_command(command);
        left -= 1;
    }
}

/// Notes the moment.
pub fn note_moment<M: RecordedMachine, O: AnswerWriter + Drop>(
    text: &[u8],
    holding: &mut Holding,
    scene: Scene<'_>,
    session: &Session<M>,
    page: &mut Page<O>,
)
    ensures { (s : Setting) (d : Debugger) → StandsFor M.stands session.now s d
        → held holding.new ≡ (if is_alone text.now then noted.after_checkpoint d (held holding.old) else held holding.old) }
{
    if !is_alone(text) {
        tell_usage(CHECKPOINT, scene.line, page);
    } else if is_whole(session) {
        note_step(session.machine().kept_steps() as u64, holding, page);
    } else {
        tell_not_whole(page);
    }
}

/// Notes the moment after so many steps.
fn note_step<O: AnswerWriter + Drop>(step: u64, holding: &mut Holding, page: &mut Page<O>)
    ensures { held holding.new ≡ changes.with_checkpoint (held holding.old) step }
{
    match holding.add_checkpoint(step) {
        Some(number) => tell_checkpoint(number, step, page),
        None => page.put(FULL),
    }
}

/// Notes a moment no more, or none.
pub fn forget<O: AnswerWriter + Drop>(
    text: &[u8],
    holding: &mut Holding,
    scene: Scene<'_>,
    page: &mut Page<O>,
)
    ensures { held holding.new ≡ noted.after_forget (held holding.old) (readings.delete_of (command_of text.now)) }
{
    match delete_of(text) {
        Some(number) => forget_number(number, holding, page),
        None => tell_usage(FORGET, scene.line, page),
    }
}

/// Notes the moment of a number no more, or none.
fn forget_number<O: AnswerWriter + Drop>(
    number: Option<u32>,
    holding: &mut Holding,
    page: &mut Page<O>,
)
    ensures { held holding.new ≡ changes.without_checkpoint (held holding.old) number }
{
    let count = holding.checkpoints().len();
    holding.remove_checkpoint(number);
    if holding.checkpoints().len() == count {
        page.put(b"no checkpoint has this number; `info checkpoints` lists them\n");
    } else {
        page.put(b"noted no more\n");
    }
}

/// Writes the moments that were noted, by their numbers.
pub fn show_checkpoints<O: AnswerWriter + Drop>(holding: &Holding, page: &mut Page<O>)
    ensures { Puts (noted.checkpoints_text (held holding.now).checkpoints) page.old.has_failed page.new.has_failed (O.written page.old.writer) (O.written page.new.writer) }
{
    if holding.checkpoints().is_empty() {
        page.put(b"no checkpoints\n");
    } else {
        list_checkpoints(holding.checkpoints(), page);
    }
}

/// Writes a line for each of some moments.
fn list_checkpoints<O: AnswerWriter + Drop>(checkpoints: &[Checkpoint], page: &mut Page<O>)
    ensures { Puts (flat_map noted.line_text (map noted_of checkpoints.now)) page.old.has_failed page.new.has_failed (O.written page.old.writer) (O.written page.new.writer) }
{
    for checkpoint in checkpoints {
        show_checkpoint(checkpoint.number, checkpoint.step, page);
    }
}

/// Whether no value that was set can be taken back.
pub fn is_unset<M: RecordedMachine>(session: &Session<M>) -> bool
    ensures { (s : Setting) (d : Debugger) → StandsFor M.stands session.now s d → result ≡ moments.is_unset d }
{
    session.machine().kept() == session.machine().kept_steps()
}
