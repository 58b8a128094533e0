//! The texts that are written at a place.
ghost use Rattle.std.specs.Prelude.{◌≡◌, map, true};
ghost use Rattle.gang_model.specs.Debugger.Debugger.{Debugger, Setting, now};
ghost use Rattle.gang_model.specs.Debugger.Positions.{line_now};
ghost use Rattle.debug_session.specs.Sessions.{StandsFor, bare};
ghost use Rattle.conditional_stops.specs.Tables.{condition_of};
ghost use Rattle.conditional_stops.specs.Verdicts.{IsJudged};
ghost use Rattle.conditional_stops.specs.Views.{table_of};
ghost use Rattle.log_points.specs.Points.{log_of, written_of};
ghost use Rattle.log_points.specs.Writing as spec;
ghost use Rattle.log_points.specs.Writing.{CountsBy, CountsHere, WritesHere, WritesIf, WritesOne, put_passes};

use crate::points::{LogPoint, Logs, Written};
use crate::texts::add;
use conditional_stops::{Conditions, Verdict, judge_condition};
use debug_answers::{NumberedStop, Stop};
use debug_session::Session;
use debug_traits::RecordedMachine;
use frame_expressions::ExpressionMachine;
use std::alloc::Global;

/// Writes the texts of the place where the program stands: those of the breakpoints there, in the order of their entries, of which
/// each counts by its condition and by how many of its stops are still to be passed.
pub fn write_here<M: ExpressionMachine>(
    alloc: Global,
    logs: &mut Logs,
    session: &Session<M>,
    written: &mut Written,
)
    ensures writes { (s : Setting) (d : Debugger) → StandsFor M.stands session.now s d
        → WritesHere s d (map log_of logs.old.points.items) (table_of logs.old.terms) (written_of written.old) (table_of logs.new.terms) (written_of written.new) }
    ensures points { logs.new.points ≡ logs.old.points }
{
    write_each(
        alloc,
        logs.points.as_slice(),
        &mut logs.terms,
        session,
        written,
    );
}

/// Writes the texts of those of some breakpoints that are here.
pub(crate) fn write_each<M: ExpressionMachine>(
    alloc: Global,
    points: &[LogPoint],
    terms: &mut Conditions,
    session: &Session<M>,
    written: &mut Written,
)
    ensures { (s : Setting) (d : Debugger) → StandsFor M.stands session.now s d
        → WritesHere s d (map log_of points.now) (table_of terms.old) (written_of written.old) (table_of terms.new) (written_of written.new) }
{
    for point in points {
        write_one(alloc, point, terms, session, written);
    }
}

/// Writes the text of a breakpoint, if it is here and counts.
fn write_one<M: ExpressionMachine>(
    alloc: Global,
    point: &LogPoint,
    terms: &mut Conditions,
    session: &Session<M>,
    written: &mut Written,
)
    ensures { (s : Setting) (d : Debugger) → StandsFor M.stands session.now s d
        → WritesOne s d (log_of point.now) (table_of terms.old) (written_of written.old) (table_of terms.new) (written_of written.new) }
{
    if is_here(point.number, session) {
        write_counted(alloc, point, terms, session.machine(), written);
    }
}

/// Writes the text of a breakpoint that is here, if it counts.
fn write_counted<M: ExpressionMachine>(
    alloc: Global,
    point: &LogPoint,
    terms: &mut Conditions,
    machine: &M,
    written: &mut Written,
)
    ensures { (s : Setting) (d : Debugger) → M.stands machine.now s (bare d)
        → WritesIf true s d (log_of point.now) (table_of terms.old) (written_of written.old) (table_of terms.new) (written_of written.new) }
{
    if counts(alloc, point.number, terms, machine) {
        add(alloc, point.message.as_str(), machine, written);
    }
}

/// Whether the breakpoint of a number is on the line where the program stands.
fn is_here<M: RecordedMachine>(number: u32, session: &Session<M>) -> bool
    ensures { (s : Setting) (d : Debugger) → StandsFor M.stands session.now s d → result ≡ spec.is_here s d number }
{
    match line_of(session.machine()) {
        Some(line) => is_among(number, line, session.stops()),
        None => false,
    }
}

/// The line where a machine stands, unless the program has ended.
fn line_of<M: RecordedMachine>(machine: &M) -> Option<u32>
    ensures { (s : Setting) (d : Debugger) → M.stands machine.now s d → line_now s.program (now s d) ≡ result }
{
    match machine.position() {
        Some(position) => Some(position.place.line),
        None => None,
    }
}

/// Whether a breakpoint of a number on a line is there.
fn is_among(number: u32, line: u32, stops: &[NumberedStop]) -> bool
    ensures { result ≡ spec.is_among number line stops.now }
{
    stops.iter().any(|stop| is_on(number, line, *stop))
}

/// Whether this is the breakpoint of a number, and on a line.
fn is_on(number: u32, line: u32, entry: NumberedStop) -> bool
    ensures { result ≡ spec.is_on number line entry }
{
    match entry.stop {
        Stop::Line(own) => entry.number == number && line == own,
        Stop::Watch { .. } => false,
    }
}

/// Whether a breakpoint counts where the program stands, by its condition and by how many of its stops are still to be passed.
fn counts<M: ExpressionMachine>(
    alloc: Global,
    number: u32,
    terms: &mut Conditions,
    machine: &M,
) -> bool
    ensures { (s : Setting) (d : Debugger) → M.stands machine.now s (bare d)
        → CountsHere s d number (table_of terms.old) result (table_of terms.new) }
{
    let verdict = judge(alloc, number, terms, machine);
    counts_by(&verdict, number, terms)
}

/// Whether a breakpoint counts, by what its condition comes to.
fn counts_by(verdict: &Option<Verdict>, number: u32, terms: &mut Conditions) -> bool
    ensures { CountsBy verdict.now number (table_of terms.old) result (table_of terms.new) }
{
    match verdict {
        Some(Verdict::NoValue(_)) => true,
        Some(Verdict::Fails) => false,
        Some(Verdict::Holds(_)) | None => is_reached(number, terms),
    }
}

/// What the condition of a breakpoint comes to, where it has one.
fn judge<M: ExpressionMachine>(
    alloc: Global,
    number: u32,
    terms: &Conditions,
    machine: &M,
) -> Option<Verdict>
    ensures { (s : Setting) (d : Debugger) → M.stands machine.now s (bare d)
        → IsJudged (condition_of number (table_of terms.now)) s d result }
{
    match terms.condition(number) {
        Some(text) => Some(judge_condition(alloc, text, machine)),
        None => None,
    }
}

/// Whether no stop of a breakpoint is still to be passed; if one is, it has been passed now.
fn is_reached(number: u32, terms: &mut Conditions) -> bool
    ensures reached { result ≡ spec.is_reached number (table_of terms.old) }
    ensures table { table_of terms.new ≡ spec.one_passed number (table_of terms.old) }
{
    let passes = terms.passes(number);
    put_passes(number, passes.saturating_sub(1), terms);
    passes == 0
}

/// Lets so many stops of a breakpoint be passed, where there is room.
fn put_passes(number: u32, passes: u32, terms: &mut Conditions)
    ensures { table_of terms.new ≡ put_passes number passes (table_of terms.old) }
{
    match terms.set_passes(number, passes) {
        Ok(()) => {}
        Err(_) => {}
    }
}
