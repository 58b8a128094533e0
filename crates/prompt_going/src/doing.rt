//! Moves, by the kind of a command line.
ghost use Rattle.std.specs.Prelude.{◌≡◌, ◌==◌, Some, if◌then◌else◌};
ghost use Rattle.gang_model.specs.Debugger.Debugger.{Debugger, Setting, DoNext};
ghost use Rattle.gang_model.specs.Texts.CommandText.{command_of};
ghost use Rattle.command_lists.specs.Lists.{HasDone};
ghost use Rattle.debug_session.specs.Sessions.{StandsFor};
ghost use Rattle.prompt_lines.specs.Sources.{line_named};
ghost use Rattle.prompt_lines.specs.Words.{is_alone};
ghost use Rattle.prompt_scenes.specs.Holding.{held, sheet};
ghost use Rattle.prompt_scenes.specs.SelectedFrame as selection;
ghost use Rattle.prompt_moves.specs.Following as following;
ghost use Rattle.prompt_going.specs.Until as until;

use debug_answers::Answer;
use debug_commands::{Command, read_command};
use debug_session::Session;
use debug_traits::AnswerWriter;
use frame_expressions::ExpressionMachine;
use prompt_lines::is_alone;
use prompt_moves::{do_own, follow, go_on};
use prompt_scenes::{Holding, Scene, line_of, made_number};
use prompt_texts::{Before, Page, tell, tell_move, tell_unknown};
use prompt_values::tell_unheld;

/// Why no outer frame is finished.
const FINISHES_TOP: &[u8] =
    b"`finish` leaves the top frame, number 0: `frame 0` selects it, and `finish` again leaves the next one.\n";

/// Does the command that a command line spells; says of a line that spells none why.
pub(crate) fn do_spelled<M: ExpressionMachine, O: AnswerWriter + Drop>(
    text: &[u8],
    holding: &mut Holding,
    scene: Scene<'_>,
    session: &mut Session<M>,
    page: &mut Page<O>,
)
    ensures { (s : Setting) (d : Debugger) → StandsFor M.stands session.old s d → s.limit ≡ scene.entry.most_steps
        → HasDone M.stands s (following.own s d (held holding.old) (command_of text.now)) d session.new
        × (held holding.new ≡ following.after_own s d (held holding.old) (command_of text.now)) }
{
    match read_command(text) {
        Some(command) => do_own(command, holding, scene, session, page),
        None => tell_unknown(scene.line, page),
    }
}

/// Goes on until the top frame is left.
pub fn finish<M: ExpressionMachine, O: AnswerWriter + Drop>(
    text: &[u8],
    holding: &mut Holding,
    scene: Scene<'_>,
    session: &mut Session<M>,
    page: &mut Page<O>,
)
    ensures { (s : Setting) (d : Debugger) → StandsFor M.stands session.old s d → s.limit ≡ scene.entry.most_steps
        → HasDone M.stands s (selection.in_top (held holding.old) (following.own s d (held holding.old) (command_of text.now))) d session.new
        × (held holding.new ≡ (if (held holding.old).frame == 0 then following.after_own s d (held holding.old) (command_of text.now) else held holding.old)) }
{
    if holding.is_top() {
        do_spelled(text, holding, scene, session, page);
    } else {
        page.put(FINISHES_TOP);
    }
}

/// Goes on to a line, or, where none is named, to the next one of this function.
pub fn go_until<M: ExpressionMachine, O: AnswerWriter + Drop>(
    text: &[u8],
    holding: &mut Holding,
    scene: Scene<'_>,
    session: &mut Session<M>,
    page: &mut Page<O>,
)
    ensures { (s : Setting) (d : Debugger) → StandsFor M.stands session.old s d → s.limit ≡ scene.entry.most_steps
        → HasDone M.stands s (if is_alone text.now then following.done_with s d (held holding.old) (DoNext 1)
        else until.until_line s d (held holding.old) (line_named (sheet scene.entry.source) text.now)) d session.new
        × (held holding.new ≡ (if is_alone text.now then following.after_command s d (held holding.old) (DoNext 1)
        else until.after_until s d (held holding.old) (line_named (sheet scene.entry.source) text.now))) }
{
    if is_alone(text) {
        do_own(Command::Next(1), holding, scene, session, page);
    } else {
        go_to_spelled(text, holding, scene, session, page);
    }
}

/// Goes on to the line of a breakpoint that a command line spells.
fn go_to_spelled<M: ExpressionMachine, O: AnswerWriter + Drop>(
    text: &[u8],
    holding: &mut Holding,
    scene: Scene<'_>,
    session: &mut Session<M>,
    page: &mut Page<O>,
)
    ensures { (s : Setting) (d : Debugger) → StandsFor M.stands session.old s d → s.limit ≡ scene.entry.most_steps
        → HasDone M.stands s (until.until_line s d (held holding.old) (line_named (sheet scene.entry.source) text.now)) d session.new
        × (held holding.new ≡ until.after_until s d (held holding.old) (line_named (sheet scene.entry.source) text.now)) }
{
    if let Some(line) = line_of(text, scene.source) {
        go_to_line(line, holding, scene, session, page);
    } else {
        tell_unknown(scene.line, page);
    }
}

/// Makes a breakpoint, goes on to it, and deletes it.
fn go_to_line<M: ExpressionMachine, O: AnswerWriter + Drop>(
    line: u32,
    holding: &mut Holding,
    scene: Scene<'_>,
    session: &mut Session<M>,
    page: &mut Page<O>,
)
    ensures { (s : Setting) (d : Debugger) → StandsFor M.stands session.old s d → s.limit ≡ scene.entry.most_steps
        → HasDone M.stands s (until.until_line s d (held holding.old) (Some line)) d session.new
        × (held holding.new ≡ until.after_until s d (held holding.old) (Some line)) }
{
    let answer = session.do_command(Command::Break(line));
    match made_number(&answer) {
        Some(number) => go_to_stop(number, holding, scene, session, page),
        None => tell(&answer, scene.line, scene.source, session, page),
    }
}

/// Goes on to a breakpoint that has been made, and deletes it.
fn go_to_stop<M: ExpressionMachine, O: AnswerWriter + Drop>(
    number: u32,
    holding: &mut Holding,
    scene: Scene<'_>,
    session: &mut Session<M>,
    page: &mut Page<O>,
)
    ensures { (s : Setting) (d : Debugger) → StandsFor M.stands session.old s d → s.limit ≡ scene.entry.most_steps
        → HasDone M.stands s (until.going s (held holding.old) d (Some number)) d session.new
        × (held holding.new ≡ until.after_going s (held holding.old) d (Some number)) }
{
    let before = Before::note(session.machine());
    let answer = go_on(scene.most_steps, session, page);
    let _ = session.do_command(Command::Delete(Some(number)));
    tell_until(&answer, number, &before, holding, scene, session, page);
    follow(&answer, holding, scene, session, page);
}

/// Tells where a move led, whose own breakpoint had a number that is not told.
fn tell_until<M: ExpressionMachine, O: AnswerWriter + Drop>(
    answer: &Answer<'_>,
    number: u32,
    before: &Before,
    holding: &Holding,
    scene: Scene<'_>,
    session: &Session<M>,
    page: &mut Page<O>,
) {
    let told = match answer {
        Answer::AtBreakpoint(other) if *other == number => Answer::Here,
        other => *other,
    };
    tell_move(&told, scene.line, before, scene.source, session, page);
    tell_unheld(&told, holding, scene, session, page);
}
