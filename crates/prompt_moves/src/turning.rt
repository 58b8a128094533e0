//! Moves, and what follows them.
ghost use Rattle.std.specs.Prelude.{◌≡◌, ◌∷◌, ◌++◌, [], true, map};
ghost use Rattle.gang_model.specs.Debugger.Debugger.{Debugger, Setting, do_command};
ghost use Rattle.gang_model.specs.Texts.CommandText.{command_of};
ghost use Rattle.command_lists.specs.Lists.{HasDone};
ghost use Rattle.debug_commands.specs.Views.{command_view};
ghost use Rattle.debug_session.specs.Sessions.{RepliesTo, StandsFor};
ghost use Rattle.prompt_scenes.specs.Holding.{entry_of, held};
ghost use Rattle.prompt_scenes.specs.Readings as readings;
ghost use Rattle.prompt_scenes.specs.Given as given;
ghost use Rattle.prompt_moves.specs.Following as following;
ghost use Rattle.prompt_moves.specs.GivenMoves as given_moves;

use crate::pieces::go_on;
use debug_answers::Answer;
use debug_commands::Command;
use debug_session::Session;
use debug_traits::{AnswerWriter, FramedMachine, RecordedMachine};
use frame_expressions::ExpressionMachine;
use prompt_scenes::{
    Displayed, Holding, Scene, is_move, is_refusal, last_move, print_of, stopped_number,
};
use prompt_texts::{Before, Page, tell, tell_move};
use prompt_values::{awaited_by, show_form_here, tell_answer, tell_returned, tell_unheld};

/// Does a command, and what follows a move.
pub fn do_own<M: ExpressionMachine, O: AnswerWriter + Drop>(
    command: Command<'_>,
    holding: &mut Holding,
    scene: Scene<'_>,
    session: &mut Session<M>,
    page: &mut Page<O>,
)
    ensures { (s : Setting) (d : Debugger) → StandsFor M.stands session.old s d → s.limit ≡ scene.entry.most_steps
        → HasDone M.stands s (following.done_with s d (held holding.old) (command_view command.entry)) d session.new
        × (held holding.new ≡ following.after_command s d (held holding.old) (command_view command.entry)) }
{
    if is_move(command) {
        do_move(command, holding, scene, session, page);
    } else {
        do_beside(command, holding, scene, session, page);
    }
}

/// Does a command that does not move, and tells what it came to, but not that no breakpoint or watch is listed where frames are watched.
fn do_beside<M: RecordedMachine, O: AnswerWriter + Drop>(
    command: Command<'_>,
    holding: &Holding,
    scene: Scene<'_>,
    session: &mut Session<M>,
    page: &mut Page<O>,
)
    ensures { (s : Setting) (d : Debugger) → StandsFor M.stands session.old s d
        → HasDone M.stands s (command_view command.entry ∷ []) d session.new }
{
    let answer = session.do_command(command);
    if !lists_frames_alone(&answer, holding, session) {
        tell(&answer, scene.line, scene.source, session, page);
    }
}

/// Whether a list of breakpoints and watches has none but those of frames.
fn lists_frames_alone<M: RecordedMachine>(
    answer: &Answer<'_>,
    holding: &Holding,
    session: &Session<M>,
) -> bool {
    matches!(answer, Answer::ListsStops) && session.stops().is_empty() && holding.has_frames()
}

/// Does a command that does not move, and tells what it came to.
pub fn do_alone<M: RecordedMachine, O: AnswerWriter + Drop>(
    command: Command<'_>,
    scene: Scene<'_>,
    session: &mut Session<M>,
    page: &mut Page<O>,
)
    ensures { (s : Setting) (d : Debugger) → StandsFor M.stands session.old s d
        → HasDone M.stands s (command_view command.entry ∷ []) d session.new }
{
    let answer = session.do_command(command);
    tell(&answer, scene.line, scene.source, session, page);
}

/// Moves, and tells where to and what changed; then what follows a move.
fn do_move<M: ExpressionMachine, O: AnswerWriter + Drop>(
    command: Command<'_>,
    holding: &mut Holding,
    scene: Scene<'_>,
    session: &mut Session<M>,
    page: &mut Page<O>,
)
    requires { readings.moves (command_view command) ≡ true }
    ensures { (s : Setting) (d : Debugger) → StandsFor M.stands session.old s d → s.limit ≡ scene.entry.most_steps
        → HasDone M.stands s (command_view command.entry ∷ following.follows (held holding.old) (do_command s (command_view command.entry) d).answer) d session.new
        × (held holding.new ≡ following.begun (held holding.old) (do_command s (command_view command.entry) d).answer) }
{
    let before = Before::note(session.machine());
    let awaited = awaited_by(command, session);
    let answer = make_moves(command, scene, session, page);
    tell_move(&answer, scene.line, &before, scene.source, session, page);
    tell_returned(awaited, &answer, scene, session, page);
    tell_unheld(&answer, holding, scene, session, page);
    follow(&answer, holding, scene, session, page);
}

/// Does a command that moves: `continue` by pieces.
fn make_moves<'a, M: RecordedMachine, O: AnswerWriter + Drop>(
    command: Command<'a>,
    scene: Scene<'_>,
    session: &mut Session<M>,
    page: &mut Page<O>,
) -> Answer<'a>
    ensures { (s : Setting) (d : Debugger) → StandsFor M.stands session.old s d → s.limit ≡ scene.entry.most_steps
        → RepliesTo M.may_want M.stands s (command_view command.entry) d result session.new }
{
    match command {
        Command::Continue => go_on(scene.most_steps, session, page),
        other => session.do_command(other),
    }
}

/// What follows a move: the program has begun, the temporary breakpoint that stopped it goes, and all that is displayed is printed.
pub fn follow<M: ExpressionMachine, O: AnswerWriter + Drop>(
    answer: &Answer<'_>,
    holding: &mut Holding,
    scene: Scene<'_>,
    session: &mut Session<M>,
    page: &mut Page<O>,
)
    ensures done { (s : Setting) (d : Debugger) → StandsFor M.stands session.old s d
        → HasDone M.stands s (given_moves.follows (held holding.old) answer.now) d session.new }
    ensures begun { held holding.new ≡ given_moves.begun (held holding.old) answer.now }
{
    if is_refusal(answer) {
        return;
    }
    holding.start();
    holding.note_move(last_move(answer));
    follow_done(answer, holding, scene, session, page);
    holding.forget_stopped(stopped_number(answer));
}

/// What follows a move that was not refused.
fn follow_done<M: ExpressionMachine, O: AnswerWriter + Drop>(
    answer: &Answer<'_>,
    holding: &Holding,
    scene: Scene<'_>,
    session: &mut Session<M>,
    page: &mut Page<O>,
)
    ensures { (s : Setting) (d : Debugger) → StandsFor M.stands session.old s d
        → HasDone M.stands s (following.deleted (held holding.now).temporaries (given.stopped_number answer.now) ++ following.shown (held holding.now).displays) d session.new }
{
    delete_stopped(stopped_number(answer), holding, session);
    show_displays(holding.displays(), scene, session, page);
}

/// Deletes the breakpoint that stopped a move, where it is temporary.
fn delete_stopped<M: RecordedMachine>(
    stopped: Option<u32>,
    holding: &Holding,
    session: &mut Session<M>,
)
    ensures { (s : Setting) (d : Debugger) → StandsFor M.stands session.old s d
        → HasDone M.stands s (following.deleted (held holding.now).temporaries stopped) d session.new }
{
    if let Some(number) = stopped {
        if holding.is_temporary(number) {
            let _ = session.do_command(Command::Delete(Some(number)));
        }
    }
}

/// Prints all that is displayed.
pub fn show_displays<M: ExpressionMachine, O: AnswerWriter + Drop>(
    displays: &[Displayed],
    scene: Scene<'_>,
    session: &mut Session<M>,
    page: &mut Page<O>,
)
    ensures { (s : Setting) (d : Debugger) → StandsFor M.stands session.old s d
        → HasDone M.stands s (following.shown (map entry_of displays.now)) d session.new }
{
    for displayed in displays {
        show_display(displayed, scene, session, page);
    }
}

/// Prints what is displayed by a number. What is not in scope now is left out.
fn show_display<M: ExpressionMachine, O: AnswerWriter + Drop>(
    displayed: &Displayed,
    scene: Scene<'_>,
    session: &mut Session<M>,
    page: &mut Page<O>,
)
    ensures { (s : Setting) (d : Debugger) → StandsFor M.stands session.old s d
        → HasDone M.stands s (following.printed (readings.print_of (command_of displayed.now.text.items))) d session.new }
{
    if let Some(target) = print_of(displayed.text.as_slice()) {
        let answer = session.do_command(Command::Print(target));
        tell_displayed(displayed.number, &answer, scene, session, page);
    } else {
        show_form_here(displayed, scene, session, page);
    }
}

/// Writes what is displayed, behind its number.
fn tell_displayed<M: FramedMachine, O: AnswerWriter + Drop>(
    number: u32,
    answer: &Answer<'_>,
    scene: Scene<'_>,
    session: &Session<M>,
    page: &mut Page<O>,
) {
    if let Answer::Shows { .. } = answer {
        page.put_number(i128::from(number));
        page.put(b": ");
        tell_answer(answer, scene, session, page);
    }
}
