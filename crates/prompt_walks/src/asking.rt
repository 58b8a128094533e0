//! At which moments of the run an expression is not 0.
ghost use Rattle.std.specs.Prelude.{◌≡◌, ◌&&◌};
ghost use Rattle.gang_model.specs.Debugger.Debugger.{Debugger, Setting};
ghost use Rattle.command_lists.specs.Lists.{HasDone};
ghost use Rattle.debug_session.specs.Sessions.{StandsFor};
ghost use Rattle.prompt_moves.specs.Moments as moments;
ghost use Rattle.prompt_walks.specs.Walks as walks;

use debug_commands::Command;
use debug_session::Session;
use debug_traits::{AnswerWriter, Position, RecordedMachine};
use frame_expressions::ExpressionMachine;
use frame_values::{ExpressionValue, NoValue, value_of_expression};
use gang_types::Mask;
use placed_expressions::ExpressionRefusal;
use prompt_lines::{HELD, is_alone};
use prompt_moves::{is_unset, is_whole, move_to};
use prompt_scenes::{Scene, depth, is_here};
use prompt_texts::{
    Asked, Page, Spelled, show_moment, tell_asked, tell_no_value, tell_not_whole, tell_usage,
};

/// What may follow `when`.
const WHEN: &[u8] =
    b"An expression follows `when`, as `when total > 100`: the first moment of the run is told at which it is not 0 in a lane; `when -a` lists twenty.";

/// Why nothing is told.
const IS_SET: &[u8] =
    b"Nothing is done: a value was set by `set var`, which going back would take back; `undo` takes it back.\n";

/// The word that the command line begins with.
const WORD: usize = 4;

/// How many moments are listed where all are asked for.
const LISTED: u64 = 20;

/// The widest gang.
const WIDEST: usize = 16;

/// What is asked of each moment, and how many moments are shown at most.
#[derive(Clone, Copy)]
struct Question<'a> {
    typed: &'a [u8],
    shown: u64,
}

/// Tells at which moments of the run an expression is not 0 in an active lane of the top frame. The program stands where it stood.
pub fn tell_when<M: ExpressionMachine, O: AnswerWriter + Drop>(
    text: &[u8],
    scene: Scene<'_>,
    session: &mut Session<M>,
    page: &mut Page<O>,
)
    ensures { (s : Setting) (d : Debugger) → StandsFor M.stands session.old s d → s.limit ≡ scene.entry.most_steps
        → HasDone M.stands s (walks.when_by s d text.now) d session.new }
{
    if is_asked(text) {
        ask_if_known(question_of(text), scene, session, page);
    } else {
        tell_usage(WHEN, scene.line, page);
    }
}

/// Whether a command line asks something, all of which is held.
fn is_asked(text: &[u8]) -> bool
    ensures { result ≡ walks.is_asked text.now }
{
    !is_alone(text) && text.len() < HELD
}

/// What a command line asks.
fn question_of(text: &[u8]) -> Question<'_> {
    let typed = text.get(WORD..).unwrap_or(&[]).trim_ascii();
    match typed.strip_prefix(b"-a ") {
        Some(rest) => Question {
            typed: rest.trim_ascii(),
            shown: LISTED,
        },
        None => Question { typed, shown: 1 },
    }
}

/// Asks each moment, where single steps lead to each of them and back.
fn ask_if_known<M: ExpressionMachine, O: AnswerWriter + Drop>(
    question: Question<'_>,
    scene: Scene<'_>,
    session: &mut Session<M>,
    page: &mut Page<O>,
)
    ensures { (s : Setting) (d : Debugger) → StandsFor M.stands session.old s d → s.limit ≡ scene.entry.most_steps
        → HasDone M.stands s (walks.walked_if_known s d) d session.new }
{
    if is_known(session) {
        ask_all(question, scene, session, page);
    } else {
        tell_unknown_moments(session, page);
    }
}

/// Tells why single steps do not lead to each moment of the run and back.
pub(crate) fn tell_unknown_moments<M: RecordedMachine, O: AnswerWriter + Drop>(
    session: &Session<M>,
    page: &mut Page<O>,
) {
    if is_unset(session) {
        tell_not_whole(page);
    } else {
        page.put(IS_SET);
    }
}

/// Whether single steps lead to each moment of the run and back.
pub(crate) fn is_known<M: RecordedMachine>(session: &Session<M>) -> bool
    ensures { (s : Setting) (d : Debugger) → StandsFor M.stands session.now s d → result ≡ (moments.is_whole d && moments.is_unset d) }
{
    is_whole(session) && is_unset(session)
}

/// Asks each moment from the start on, and tells what they say.
fn ask_all<M: ExpressionMachine, O: AnswerWriter + Drop>(
    question: Question<'_>,
    scene: Scene<'_>,
    session: &mut Session<M>,
    page: &mut Page<O>,
)
    ensures { (s : Setting) (d : Debugger) → StandsFor M.stands session.old s d → s.limit ≡ scene.entry.most_steps
        → HasDone M.stands s (moments.walked s.limit s d) d session.new }
{
    let here = session.machine().kept_steps() as u64;
    let _ = move_to(0, session);
    let asked = ask_on(scene.most_steps as u64, question, scene, session, page);
    let _ = move_to(here, session);
    tell_found(&asked, question, scene, session, page);
}

/// Asks this moment and those behind it, as many as there are steps at most.
fn ask_on<M: ExpressionMachine, O: AnswerWriter + Drop>(
    most: u64,
    question: Question<'_>,
    scene: Scene<'_>,
    session: &mut Session<M>,
    page: &mut Page<O>,
) -> Asked
    ensures { (s : Setting) (d : Debugger) → StandsFor M.stands session.old s d → StandsFor M.stands session.new s (moments.led s (moments.steps_on most s d) d) }
{
    let mut asked = ask(Asked::new(), question, scene, session, page);
    let mut left = most;
    while left > 0 {
        let answer = session.do_command(Command::Step(1));
        if !is_here(&answer) {
            return asked;
        }
        asked = ask(asked, question, scene, session, page);
        left -= 1;
    }
    cut_unless_ended(asked, session)
}

/// What was asked, cut where the run goes on.
fn cut_unless_ended<M: RecordedMachine>(asked: Asked, session: &Session<M>) -> Asked {
    match session.machine().position() {
        Some(_) => asked.cut(),
        None => asked,
    }
}

/// Asks this moment, and shows it where the expression is not 0, up to so many.
fn ask<M: ExpressionMachine, O: AnswerWriter + Drop>(
    asked: Asked,
    question: Question<'_>,
    scene: Scene<'_>,
    session: &Session<M>,
    page: &mut Page<O>,
) -> Asked {
    let machine = session.machine();
    let Some(position) = machine.position() else {
        return asked;
    };
    match value_of_expression(scene.alloc, question.typed, position.depth, machine) {
        Ok(value) => note(asked, &value, position, question, scene, machine, page),
        Err(NoValue::Refused(ExpressionRefusal::Memory)) => asked.without_memory(),
        Err(_) => asked,
    }
}

/// Notes a value, and shows the moment where it is not 0 in a lane, up to so many.
fn note<M: RecordedMachine, O: AnswerWriter + Drop>(
    asked: Asked,
    value: &ExpressionValue,
    position: Position<'_>,
    question: Question<'_>,
    scene: Scene<'_>,
    machine: &M,
    page: &mut Page<O>,
) -> Asked {
    let lanes = true_lanes(value);
    if lanes.is_empty::<WIDEST>() {
        return asked.and_false();
    }
    if asked.count() < question.shown {
        show_moment(position, lanes, scene.source, machine, page);
    }
    asked.and_true(machine.kept_steps())
}

/// The lanes in which a value is not 0.
fn true_lanes(value: &ExpressionValue) -> Mask {
    value.lanes.lanes.where_true::<WIDEST>(value.lanes.words)
}

/// Tells what the moments say, or why none says anything.
fn tell_found<M: ExpressionMachine, O: AnswerWriter + Drop>(
    asked: &Asked,
    question: Question<'_>,
    scene: Scene<'_>,
    session: &Session<M>,
    page: &mut Page<O>,
) {
    if asked.has_value() {
        tell_asked(asked, question.typed, page);
    } else {
        tell_why(question, scene, session, page);
    }
}

/// Tells why an expression has no value at any moment, by what it lacks where the program stands.
fn tell_why<M: ExpressionMachine, O: AnswerWriter + Drop>(
    question: Question<'_>,
    scene: Scene<'_>,
    session: &Session<M>,
    page: &mut Page<O>,
) {
    let depth = depth(session);
    match value_of_expression(scene.alloc, question.typed, depth, session.machine()) {
        Err(NoValue::Refused(refusal)) => tell_no_value(
            &NoValue::Refused(refusal),
            Spelled {
                line: scene.line,
                text: question.typed,
            },
            page,
        ),
        _ => page.put(b"it has a value at no moment of the run\n"),
    }
}
