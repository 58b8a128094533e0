//! `continue` and `reverse-continue`, on to a stop that counts.
ghost use Rattle.std.specs.Prelude.{◌≡◌, ◌≤◌, ◌+◌, ◌*◌, ℕ};
ghost use Rattle.gang_model.specs.Debugger.Debugger.{Debugger, Setting, do_command, now};
ghost use Rattle.debug_commands.specs.Views.{command_view};
ghost use Rattle.debug_session.specs.Moves.{noted, watch_words};
ghost use Rattle.debug_session.specs.Sessions.{Replied, StandsFor};
ghost use Rattle.conditional_stops.specs.Going as spec;
ghost use Rattle.conditional_stops.specs.Going.{GoesOn, GoesOnce};
ghost use Rattle.conditional_stops.specs.Tables.{nothing};
ghost use Rattle.conditional_stops.specs.Views.{table_of};
ghost use Rattle.conditional_stops.specs.Walking.{step_of};

use crate::asking::ask_all;
use crate::reasons::{CountedStop, Reason};
use crate::table::Conditions;
use crate::watching::{WordsBefore, note_words};
use debug_answers::{Answer, Refusal};
use debug_commands::Command;
use debug_session::Session;
use frame_expressions::ExpressionMachine;
use std::alloc::Global;

/// Which way a program goes on.
#[derive(Clone, Copy, Debug, PartialEq, Eq)]
pub enum Direction {
    /// By `continue`.
    Forward,
    /// By `reverse-continue`.
    Backward,
}

impl Direction {
    /// The command that goes on.
    fn command<'a>(self) -> Command<'a>
        ensures { command_view result ≡ spec.command_of self }
    {
        match self {
            Direction::Forward => Command::Continue,
            Direction::Backward => Command::ReverseContinue,
        }
    }

    /// The command that makes one step.
    pub(crate) fn step<'a>(self) -> Command<'a>
        ensures { command_view result ≡ step_of self }
    {
        match self {
            Direction::Forward => Command::Step(1),
            Direction::Backward => Command::ReverseStep(1),
        }
    }
}

/// What ended a move.
#[derive(Clone, Copy, Debug)]
pub enum MoveEnd<'a> {
    /// A stop that counts.
    Stopped(CountedStop),
    /// Another answer of the debugger: a fault, an end, a limit or a refusal.
    Answered(Answer<'a>),
    /// So many stops were passed as can be in one move.
    MostPassed,
    /// There was no memory to note what the watches show, and the command was not done once more.
    NoMemory,
}

impl<'a> MoveEnd<'a> {
    /// The answer of the debugger that tells it.
    pub fn answer(&self) -> Answer<'a>
        ensures { result ≡ spec.answer_of self.now }
    {
        match self {
            MoveEnd::Stopped(
                CountedStop {
                    reason: Reason::Breakpoint(number),
                    ..
                },
            ) => Answer::AtBreakpoint(*number),
            MoveEnd::Stopped(
                CountedStop {
                    reason: Reason::Watch(number),
                    ..
                },
            ) => Answer::AtWatch(*number),
            MoveEnd::Answered(answer) => *answer,
            MoveEnd::MostPassed => Answer::StepLimit,
            MoveEnd::NoMemory => Answer::Refused(Refusal::Memory),
        }
    }
}

/// A move: what ended it, and how many stops were passed before.
#[derive(Clone, Copy, Debug)]
pub struct Moved<'a> {
    pub end: MoveEnd<'a>,
    pub passed: u32,
}

/// Goes on until a stop counts, or something else ends the move: does `continue` or `reverse-continue` again and again, so often at most.
/// Each time the debugger makes as many moves at most as for that command alone: it does not tell how many it made, so their number is
/// bounded by that of the commands. Memory is wanted to read conditions, and to note what watches show.
pub fn continue_on<'a, M: ExpressionMachine>(
    alloc: Global,
    direction: Direction,
    most: u32,
    conditions: &mut Conditions,
    session: &mut Session<M>,
) -> Moved<'a>
    ensures moved { (s : Setting) (d : Debugger) → StandsFor M.stands session.old s d
        → GoesOn M.stands s direction most d (table_of conditions.old) result session.new (table_of conditions.new) }
    // Where nothing is said of any breakpoint or watch, it is the command alone.
    ensures plain { (s : Setting) (d : Debugger) → StandsFor M.stands session.old s d → table_of conditions.old ≡ nothing → 1 ≤ most → (result.end ≡ MoveEnd.NoMemory → ⊥)
        → Replied M.stands s (do_command s (spec.command_of direction) d) (spec.answer_of result.end) session.new }
    ensures moves { (s : Setting) (d : Debugger) → StandsFor M.stands session.old s d → direction ≡ Direction.Forward
        → M.moves session.new.machine ≤ M.moves session.old.machine + most * s.limit }
{
    let mut before = Vec::new(alloc);
    for passed in 0..most {
        if let Some(end) = go_once(alloc, direction, &mut before, conditions, session) {
            return Moved { end, passed };
        }
    }
    Moved {
        end: MoveEnd::MostPassed,
        passed: most,
    }
}

/// Does the command once: what ends the move, unless it stopped where nothing counts.
fn go_once<'a, M: ExpressionMachine>(
    alloc: Global,
    direction: Direction,
    before: &mut WordsBefore,
    conditions: &mut Conditions,
    session: &mut Session<M>,
) -> Option<MoveEnd<'a>>
    ensures gone { (s : Setting) (d : Debugger) → StandsFor M.stands session.old s d
        → GoesOnce M.stands s (spec.command_of direction) d (table_of conditions.old) result session.new (table_of conditions.new) }
    ensures moves { (s : Setting) (d : Debugger) → StandsFor M.stands session.old s d → direction ≡ Direction.Forward
        → M.moves session.new.machine ≤ M.moves session.old.machine + s.limit }
{
    match note_words(session.machine(), session.stops(), before) {
        Ok(()) => do_once(alloc, direction, before, conditions, session),
        Err(_) => Some(MoveEnd::NoMemory),
    }
}

/// Does the command once, where what the watches show is noted.
fn do_once<'a, M: ExpressionMachine>(
    alloc: Global,
    direction: Direction,
    before: &WordsBefore,
    conditions: &mut Conditions,
    session: &mut Session<M>,
) -> Option<MoveEnd<'a>>
    ensures gone { (s : Setting) (d : Debugger) → StandsFor M.stands session.old s d → noted before.now.items ≡ watch_words (now s d) d.stops
        → GoesOnce M.stands s (spec.command_of direction) d (table_of conditions.old) result session.new (table_of conditions.new) }
    ensures moves { (s : Setting) (d : Debugger) → StandsFor M.stands session.old s d → direction ≡ Direction.Forward
        → M.moves session.new.machine ≤ M.moves session.old.machine + s.limit }
{
    let answer = session.do_command(direction.command());
    if is_stop(&answer) {
        stop_that_counts(ask_all(alloc, before, conditions, session))
    } else {
        Some(MoveEnd::Answered(answer))
    }
}

/// The end of a move at a stop, if it counts.
fn stop_that_counts<'a>(counted: Option<CountedStop>) -> Option<MoveEnd<'a>>
    ensures { result ≡ spec.end_at counted }
{
    match counted {
        Some(counted) => Some(MoveEnd::Stopped(counted)),
        None => None,
    }
}

/// Whether a command stopped at a breakpoint or a watch.
fn is_stop(answer: &Answer<'_>) -> bool
    ensures { result ≡ spec.tells_stop answer.now }
{
    matches!(answer, Answer::AtBreakpoint(_) | Answer::AtWatch(_))
}
