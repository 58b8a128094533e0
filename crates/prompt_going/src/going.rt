//! `continue`, `reverse-continue` and `run` where conditions or counts are there.
ghost use Rattle.std.specs.Prelude.{◌≡◌, ◌==◌, length};
ghost use Rattle.gang_model.specs.Debugger.Debugger.{Debugger, Setting};
ghost use Rattle.gang_model.specs.Texts.CommandText.{command_of};
ghost use Rattle.conditional_stops.specs.Going.{GoesOn, answer_at};
ghost use Rattle.conditional_stops.specs.Views.{table_of};
ghost use Rattle.debug_session.specs.Sessions.{StandsFor};
ghost use Rattle.prompt_scenes.specs.Holding.{held};
ghost use Rattle.prompt_moves.specs.GivenMoves as given_moves;
ghost use Rattle.prompt_moves.specs.Moments as moments;
ghost use Rattle.prompt_going.specs.GoingOn as going_on;

use crate::doing::do_spelled;
use conditional_stops::{
    Conditions, CountedStop, Direction, MoveEnd, Moved, ask_breakpoints, continue_on, walk_on,
};
use debug_commands::{Command, read_command};
use debug_session::Session;
use debug_traits::{AnswerWriter, RecordedMachine};
use frame_expressions::ExpressionMachine;
use prompt_moves::{ANEW, follow, is_whole, take_all_back};
use prompt_scenes::{Holding, Scene};
use prompt_stops::{list_frames, tell_all_lines, tell_ended, tell_walked};
use prompt_texts::{Before, Page, show_here, tell_move, tell_not_whole};
use prompt_values::{tell_conditions, tell_counted, tell_moved};
use std::alloc::Global;

/// The most stops that are passed for one line.
const MOST: u32 = 1_000_000;

/// The most stops that are passed in one piece.
const PIECE: u32 = 10_000;

/// The most pieces of one line.
const PIECES: u32 = 100;

/// Does the command that a command line spells: where variables of frames are watched, a program that goes on does so by single steps.
pub fn do_typed<M: ExpressionMachine, O: AnswerWriter + Drop>(
    text: &[u8],
    holding: &mut Holding,
    scene: Scene<'_>,
    session: &mut Session<M>,
    page: &mut Page<O>,
)
    ensures { (s : Setting) (d : Debugger) → StandsFor M.stands session.old s d → s.limit ≡ scene.entry.most_steps
        → going_on.DoesTyped M.stands s d (held holding.old) (command_of text.now) (going_on.walks_by (held holding.old) (command_of text.now)) session.new (held holding.new) }
{
    match walks_by(text, holding) {
        Some(direction) => walk_to_stop(direction, holding, scene, session, page),
        None => do_plainly(text, holding, scene, session, page),
    }
}

/// Which way the command of a command line goes on by single steps.
fn walks_by(text: &[u8], holding: &Holding) -> Option<Direction>
    ensures { result ≡ going_on.walks_by (held holding.now) (command_of text.now) }
{
    if !holding.has_frames() {
        return None;
    }
    way_of(text)
}

/// Goes on by single steps to a stop that counts; then what follows a move.
fn walk_to_stop<M: ExpressionMachine, O: AnswerWriter + Drop>(
    direction: Direction,
    holding: &mut Holding,
    scene: Scene<'_>,
    session: &mut Session<M>,
    page: &mut Page<O>,
)
    ensures { (s : Setting) (d : Debugger) → StandsFor M.stands session.old s d
        → going_on.WalksToStop M.stands s direction d (held holding.old) session.new (held holding.new) }
{
    let before = Before::note(session.machine());
    let moved = walk_on(
        scene.alloc,
        direction,
        MOST,
        holding.frames.as_slice(),
        &mut holding.conditions,
        session,
    );
    let answer = moved.end.answer();
    tell_end(&moved, &before, scene, session, page);
    tell_walked(&moved, holding, scene, session, page);
    follow(&answer, holding, scene, session, page);
}

/// Does the command that a command line spells: where conditions or counts are there, a program that goes on goes on to a stop that counts.
fn do_plainly<M: ExpressionMachine, O: AnswerWriter + Drop>(
    text: &[u8],
    holding: &mut Holding,
    scene: Scene<'_>,
    session: &mut Session<M>,
    page: &mut Page<O>,
)
    ensures { (s : Setting) (d : Debugger) → StandsFor M.stands session.old s d → s.limit ≡ scene.entry.most_steps
        → going_on.DoesOwn M.stands s d (held holding.old) (command_of text.now) (going_on.way_by (held holding.old) (command_of text.now)) session.new (held holding.new) }
{
    match way_by(text, holding) {
        Some(direction) => go_to_stop(direction, holding, scene, session, page),
        None => {
            do_spelled(text, holding, scene, session, page);
            tell_listed(text, holding, scene, session, page);
        }
    }
}

/// Which way the command of a command line goes on, where conditions or counts are there.
fn way_by(text: &[u8], holding: &Holding) -> Option<Direction>
    ensures { result ≡ going_on.way_by (held holding.now) (command_of text.now) }
{
    if holding.conditions.is_empty() {
        None
    } else {
        way_of(text)
    }
}

/// Which way the command of a command line goes on.
fn way_of(text: &[u8]) -> Option<Direction>
    ensures { result ≡ going_on.way_of (command_of text.now) }
{
    match read_command(text) {
        Some(Command::Continue) => Some(Direction::Forward),
        Some(Command::ReverseContinue) => Some(Direction::Backward),
        _ => None,
    }
}

/// Tells the conditions, the counts and the lines behind a list of the breakpoints and watches.
fn tell_listed<M: ExpressionMachine, O: AnswerWriter + Drop>(
    text: &[u8],
    holding: &Holding,
    scene: Scene<'_>,
    session: &Session<M>,
    page: &mut Page<O>,
) {
    if let Some(Command::InfoBreakpoints) = read_command(text) {
        tell_conditions(holding, session, page);
        list_frames(holding, page);
        tell_all_lines(scene.listed, holding, session, page);
    }
}

/// Goes on to a stop that counts; then what follows a move.
fn go_to_stop<M: ExpressionMachine, O: AnswerWriter + Drop>(
    direction: Direction,
    holding: &mut Holding,
    scene: Scene<'_>,
    session: &mut Session<M>,
    page: &mut Page<O>,
)
    ensures { (s : Setting) (d : Debugger) → StandsFor M.stands session.old s d
        → going_on.GoesToStop M.stands s direction d (held holding.old) session.new (held holding.new) }
{
    let before = Before::note(session.machine());
    let moved = go_by_pieces(
        scene.alloc,
        direction,
        &mut holding.conditions,
        session,
        page,
    );
    let answer = moved.end.answer();
    page.clear_progress();
    tell_end(&moved, &before, scene, session, page);
    tell_moved(&moved, holding, page);
    follow(&answer, holding, scene, session, page);
}

/// Goes on to a stop that counts, and shows after so many stops that are passed how many moves were made.
fn go_by_pieces<'a, M: ExpressionMachine, O: AnswerWriter + Drop>(
    alloc: Global,
    direction: Direction,
    conditions: &mut Conditions,
    session: &mut Session<M>,
    page: &mut Page<O>,
) -> Moved<'a>
    ensures { (s : Setting) (d : Debugger) → StandsFor M.stands session.old s d
        → GoesOn M.stands s direction going_on.most d (table_of conditions.old) result session.new (table_of conditions.new) }
{
    let began = session.machine().kept_steps();
    for piece in 0..PIECES {
        let moved = continue_on(alloc, direction, PIECE, conditions, session);
        if is_most(&moved.end) {
            put_moves(began, session.machine().kept_steps(), page);
        } else {
            return Moved {
                end: moved.end,
                passed: piece.saturating_mul(PIECE).saturating_add(moved.passed),
            };
        }
    }
    Moved {
        end: MoveEnd::MostPassed,
        passed: MOST,
    }
}

/// Whether so many stops were passed as can be in one move.
fn is_most(end: &MoveEnd<'_>) -> bool
    ensures { result ≡ going_on.is_most end.now }
{
    matches!(end, MoveEnd::MostPassed)
}

/// Shows how many moves were made, by the steps that are kept before and after them.
fn put_moves<O: AnswerWriter + Drop>(before: usize, after: usize, page: &mut Page<O>) {
    let made = before.max(after).saturating_sub(before.min(after));
    page.put_progress(u32::try_from(made).unwrap_or(u32::MAX));
}

/// Tells where a move led, or that there was no memory to go on.
fn tell_end<M: ExpressionMachine, O: AnswerWriter + Drop>(
    moved: &Moved<'_>,
    before: &Before,
    scene: Scene<'_>,
    session: &Session<M>,
    page: &mut Page<O>,
) {
    match &moved.end {
        MoveEnd::NoMemory => {
            page.put(b"C12 Memory: there is no memory to note what the watches show.\n");
            show_here(scene.source, session, page);
        }
        end => tell_move(
            &end.answer(),
            scene.line,
            before,
            scene.source,
            session,
            page,
        ),
    }
}

/// Begins the program, or begins it anew, on to a stop that counts. The watches of frames end first.
pub fn begin_run<M: ExpressionMachine, O: AnswerWriter + Drop>(
    holding: &mut Holding,
    scene: Scene<'_>,
    session: &mut Session<M>,
    page: &mut Page<O>,
)
    ensures { (s : Setting) (d : Debugger) → StandsFor M.stands session.old s d
        → going_on.Runs M.stands s d (held holding.old).has_begun (moments.is_whole d) (held holding.old) session.new (held holding.new) }
{
    let steps = session.machine().kept_steps();
    tell_ended(0, steps, holding, session, page);
    holding.end_frames(0);
    if !holding.has_begun() {
        begin_here(holding, scene, session, page);
    } else if is_whole(session) {
        page.put(ANEW);
        take_all_back(session);
        begin_here(holding, scene, session, page);
    } else {
        tell_not_whole(page);
    }
}

/// Stops at once at a breakpoint that counts where the program stands, if there is one, else goes on.
fn begin_here<M: ExpressionMachine, O: AnswerWriter + Drop>(
    holding: &mut Holding,
    scene: Scene<'_>,
    session: &mut Session<M>,
    page: &mut Page<O>,
)
    ensures { (s : Setting) (d : Debugger) → StandsFor M.stands session.old s d
        → going_on.Begins M.stands s d (held holding.old) session.new (held holding.new) }
{
    match ask_breakpoints(scene.alloc, &mut holding.conditions, session) {
        None => go_forward(holding, scene, session, page),
        Some(counted) => stop_at_once(counted, holding, scene, session, page),
    }
}

/// Goes on to a stop that counts, by single steps where any are watched.
fn go_forward<M: ExpressionMachine, O: AnswerWriter + Drop>(
    holding: &mut Holding,
    scene: Scene<'_>,
    session: &mut Session<M>,
    page: &mut Page<O>,
)
    ensures { (s : Setting) (d : Debugger) → StandsFor M.stands session.old s d
        → going_on.GoesForward M.stands s d (held holding.old) (length (held holding.old).frames == 0) session.new (held holding.new) }
{
    if holding.has_frames() {
        walk_to_stop(Direction::Forward, holding, scene, session, page);
    } else {
        go_to_stop(Direction::Forward, holding, scene, session, page);
    }
}

/// Stops where the program stands; then what follows a move.
fn stop_at_once<M: ExpressionMachine, O: AnswerWriter + Drop>(
    counted: CountedStop,
    holding: &mut Holding,
    scene: Scene<'_>,
    session: &mut Session<M>,
    page: &mut Page<O>,
)
    ensures { (s : Setting) (d : Debugger) → StandsFor M.stands session.old s d
        → going_on.Does M.stands s d (given_moves.follows (held holding.old) (answer_at counted.reason)) (given_moves.begun (held holding.old) (answer_at counted.reason)) session.new (held holding.new) }
{
    let answer = MoveEnd::Stopped(counted).answer();
    let before = Before::note(session.machine());
    tell_move(&answer, scene.line, &before, scene.source, session, page);
    tell_counted(&counted, holding, page);
    follow(&answer, holding, scene, session, page);
}
