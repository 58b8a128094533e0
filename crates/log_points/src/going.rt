//! `continue` and `reverse-continue`, where some breakpoints write a text in place of stopping.
ghost use Rattle.std.specs.Prelude.{◌≡◌, map};
ghost use Rattle.gang_model.specs.Debugger.Debugger.{Debugger, Setting};
ghost use Rattle.debug_session.specs.Sessions.{StandsFor};
ghost use Rattle.conditional_stops.specs.Going.{command_of};
ghost use Rattle.conditional_stops.specs.Views.{table_of};
ghost use Rattle.log_points.specs.Going as spec;
ghost use Rattle.log_points.specs.Going.{GoesWriting, WritesOn, WritesOnce};
ghost use Rattle.log_points.specs.Points.{log_of, written_of};

use crate::points::{LogPoint, Logs, Written, silence};
use crate::writing::write_each;
use conditional_stops::{Conditions, Direction, MoveEnd, Moved, continue_on};
use debug_session::Session;
use frame_expressions::ExpressionMachine;
use std::alloc::Global;

/// A move, and the texts that were written on the way.
#[derive(Drop)]
pub struct WroteOn<'a> {
    pub moved: Moved<'a>,
    pub written: Written,
}

/// Goes on until a stop counts, or something else ends the move, as `continue_on` does. The breakpoints that write a text are disabled
/// for it and from then on: they end no move. At each place where the program stopped on the way, and at the stop that counts, their
/// texts are written.
pub fn continue_writing<'a, M: ExpressionMachine>(
    alloc: Global,
    direction: Direction,
    most: u32,
    logs: &mut Logs,
    conditions: &mut Conditions,
    session: &mut Session<M>,
) -> WroteOn<'a>
    ensures wrote { (s : Setting) (d : Debugger) → StandsFor M.stands session.old s d
        → WritesOn M.stands s direction most d (map log_of logs.old.points.items) (table_of conditions.old) (table_of logs.old.terms)
        result session.new (table_of conditions.new) (table_of logs.new.terms) }
    ensures points { logs.new.points ≡ logs.old.points }
{
    silence(logs.points.as_slice(), conditions);
    let Logs { points, terms } = logs;
    go_writing(
        alloc,
        direction,
        most,
        points.as_slice(),
        terms,
        conditions,
        session,
    )
}

/// Goes on, where the breakpoints that write a text are disabled, and writes their texts.
fn go_writing<'a, M: ExpressionMachine>(
    alloc: Global,
    direction: Direction,
    most: u32,
    points: &[LogPoint],
    terms: &mut Conditions,
    conditions: &mut Conditions,
    session: &mut Session<M>,
) -> WroteOn<'a>
    ensures { (s : Setting) (d : Debugger) → StandsFor M.stands session.old s d
        → GoesWriting M.stands s direction most d (map log_of points.now) (table_of conditions.old) (table_of terms.old)
        result session.new (table_of conditions.new) (table_of terms.new) }
{
    let mut written = Written::new(alloc);
    for passed in 0..most {
        if let Some(end) = write_once(
            alloc,
            direction,
            points,
            terms,
            conditions,
            session,
            &mut written,
        ) {
            let moved = Moved { end, passed };
            return WroteOn { moved, written };
        }
    }
    let moved = Moved {
        end: MoveEnd::MostPassed,
        passed: most,
    };
    WroteOn { moved, written }
}

/// Does the command once, and writes the texts of the place where it stopped: what ends the move, unless nothing counts there.
fn write_once<'a, M: ExpressionMachine>(
    alloc: Global,
    direction: Direction,
    points: &[LogPoint],
    terms: &mut Conditions,
    conditions: &mut Conditions,
    session: &mut Session<M>,
    written: &mut Written,
) -> Option<MoveEnd<'a>>
    ensures { (s : Setting) (d : Debugger) → StandsFor M.stands session.old s d
        → WritesOnce M.stands s (command_of direction) d (map log_of points.now) (table_of conditions.old) (table_of terms.old) (written_of written.old)
        result session.new (table_of conditions.new) (table_of terms.new) (written_of written.new) }
{
    let end = end_of(continue_on(alloc, direction, 1, conditions, session).end);
    if is_at_stop(&end) {
        write_each(alloc, points, terms, session, written);
    }
    end
}

/// Whether the program stands at a stop: one that was passed, or one that counts.
fn is_at_stop(end: &Option<MoveEnd<'_>>) -> bool
    ensures { result ≡ spec.is_at_stop end.now }
{
    matches!(end, None | Some(MoveEnd::Stopped(_)))
}

/// The end of a move of one command, unless it stopped where nothing counts.
fn end_of<'a>(end: MoveEnd<'a>) -> Option<MoveEnd<'a>>
    ensures { result ≡ spec.end_of end.entry }
{
    match end {
        MoveEnd::MostPassed => None,
        MoveEnd::Stopped(_) | MoveEnd::Answered(_) | MoveEnd::NoMemory => Some(end),
    }
}
