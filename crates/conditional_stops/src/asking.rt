//! Which breakpoints and watches count, where a command has stopped.
ghost use Rattle.std.specs.Prelude.{◌≡◌, ℕ, ◌∷◌, [], Some, map, option_map};
ghost use Rattle.gang_model.specs.Debugger.Debugger as model;
ghost use Rattle.gang_model.specs.Debugger.Debugger.{Debugger, Setting, now, on_line};
ghost use Rattle.gang_model.specs.Debugger.Positions.{line_now};
ghost use Rattle.debug_answers.specs.Meanings.{IsStop};
ghost use Rattle.debug_session.specs.Moves.{noted, watch_words};
ghost use Rattle.debug_session.specs.Sessions.{StandsFor, bare};
ghost use Rattle.conditional_stops.specs.Reasons as spec;
ghost use Rattle.conditional_stops.specs.Reasons.{Asks, AsksOne};
ghost use Rattle.conditional_stops.specs.SightViews.{seen_view, sights_view};
ghost use Rattle.conditional_stops.specs.Tables.{asked_condition, is_disabled, passes_of};
ghost use Rattle.conditional_stops.specs.Verdicts.{IsJudged};
ghost use Rattle.conditional_stops.specs.Views.{table_of};
ghost use Rattle.conditional_stops.specs.Watches.{Seen, changed, changed_frames, seen};

use crate::going::Direction;
use crate::judging::{Verdict, judge_condition};
use crate::reasons::{CountedStop, Reason};
use crate::table::Conditions;
use crate::watches::{Sighted, Sights, Watch, has_changed, noted_sight};
use crate::watching::{WordsBefore, noted_at, shows};
use debug_answers::Stop;
use debug_session::Session;
use debug_traits::RecordedMachine;
use frame_expressions::ExpressionMachine;
use std::alloc::Global;

/// What a breakpoint or watch makes of a stop.
#[derive(Clone, Copy, Debug, PartialEq, Eq)]
pub(crate) enum Taking {
    /// It counts.
    Counts,
    /// It would count, but is one of those that are still to be passed.
    Passes,
    /// It is disabled, or its condition does not hold.
    Fails,
}

/// Asks all breakpoints and watches at which a command stopped: the first that counts.
pub(crate) fn ask_all<M: ExpressionMachine>(
    alloc: Global,
    before: &WordsBefore,
    conditions: &mut Conditions,
    session: &Session<M>,
) -> Option<CountedStop>
    ensures { (s : Setting) (began d : Debugger) → StandsFor M.stands session.now s d → noted before.now.items ≡ watch_words (now s began) d.stops
        → Asks s d (spec.reasons s began d) (table_of conditions.old) result (table_of conditions.new) }
{
    let breakpoint = ask_breakpoints(alloc, conditions, session);
    let watch = ask_watches(alloc, before, conditions, session);
    first_of(breakpoint, watch)
}

/// Asks the breakpoints on the line where the program stands: the first that counts. The counts of those that are passed go down.
pub fn ask_breakpoints<M: ExpressionMachine>(
    alloc: Global,
    conditions: &mut Conditions,
    session: &Session<M>,
) -> Option<CountedStop>
    ensures { (s : Setting) (d : Debugger) → StandsFor M.stands session.now s d
        → Asks s d (spec.breakpoints_here s d d.stops) (table_of conditions.old) result (table_of conditions.new) }
{
    let line = line_of(session.machine());
    let mut first = None;
    for entry in session.stops() {
        if is_on_line(entry.stop, line) {
            let reason = Reason::Breakpoint(entry.number);
            first = first_of(first, ask(alloc, reason, conditions, session.machine()));
        }
    }
    first
}

/// Asks the watches that show other words than were noted: the first that counts.
fn ask_watches<M: ExpressionMachine>(
    alloc: Global,
    before: &WordsBefore,
    conditions: &mut Conditions,
    session: &Session<M>,
) -> Option<CountedStop>
    ensures { (s : Setting) (began d : Debugger) → StandsFor M.stands session.now s d → noted before.now.items ≡ watch_words (now s began) d.stops
        → Asks s d (spec.changed_watches s began d d.stops) (table_of conditions.old) result (table_of conditions.new) }
{
    let mut first = None;
    let mut next = 0;
    for entry in session.stops() {
        if let Stop::Watch { variable, at } = entry.stop {
            if !shows(session.machine(), variable, at, noted_at(before, next)) {
                let reason = Reason::Watch(entry.number);
                first = first_of(first, ask(alloc, reason, conditions, session.machine()));
            }
            next += 1;
        }
    }
    first
}

/// Asks the watches that a step that way changed, by what was noted before it and behind it: the first that counts.
pub(crate) fn ask_frames<M: ExpressionMachine>(
    alloc: Global,
    direction: Direction,
    watches: &[Watch],
    before: &Sights,
    here: &Sights,
    conditions: &mut Conditions,
    session: &Session<M>,
) -> Option<CountedStop>
    ensures { (s : Setting) (began d : Debugger) → StandsFor M.stands session.now s d → sights_view before.now.items ≡ map (seen s began) watches.now
        → sights_view here.now.items ≡ map (seen s d) watches.now
        → Asks s d (changed_frames direction s began d watches.now) (table_of conditions.old) result (table_of conditions.new) }
{
    let mut first = None;
    let mut place = 0;
    for watch in watches {
        let old = noted_sight(before, place);
        let new = noted_sight(here, place);
        let machine = session.machine();
        let counted = ask_frame(alloc, direction, watch, old, new, conditions, machine);
        first = first_of(first, counted);
        place += 1;
    }
    first
}

/// Asks a watch, if a step that way changed it.
fn ask_frame<M: ExpressionMachine>(
    alloc: Global,
    direction: Direction,
    watch: &Watch,
    old: Option<&Sighted>,
    new: Option<&Sighted>,
    conditions: &mut Conditions,
    machine: &M,
) -> Option<CountedStop>
    ensures { (s : Setting) (began d : Debugger) → M.stands machine.now s (bare d) → option_map (λ shown. seen_view shown.now) old.entry ≡ Some (seen s began watch.now)
        → option_map (λ shown. seen_view shown.now) new.entry ≡ Some (seen s d watch.now)
        → Asks s d (changed_frames direction s began d (watch.now ∷ [])) (table_of conditions.old) result (table_of conditions.new) }
{
    if differs(direction, old, new) {
        ask(alloc, Reason::Watch(watch.number()), conditions, machine)
    } else {
        None
    }
}

/// Whether a step that way changed what was noted before it to what is noted behind it, or sets it.
fn differs(direction: Direction, old: Option<&Sighted>, new: Option<&Sighted>) -> bool
    ensures { (before now : Seen) → option_map (λ shown. seen_view shown.now) old.entry ≡ Some before
        → option_map (λ shown. seen_view shown.now) new.entry ≡ Some now → result ≡ changed direction before now }
{
    match (old, new) {
        (Some(old), Some(new)) => has_changed(direction, old, new),
        (Some(_), None) | (None, _) => false,
    }
}

/// Asks one breakpoint or watch: the stop, if it counts.
fn ask<M: ExpressionMachine>(
    alloc: Global,
    reason: Reason,
    conditions: &mut Conditions,
    machine: &M,
) -> Option<CountedStop>
    ensures { (s : Setting) (d : Debugger) → M.stands machine.now s (bare d) → AsksOne s d reason (table_of conditions.old) result (table_of conditions.new) }
{
    let number = reason.number();
    let verdict = judge(alloc, number, conditions, machine);
    let passes = conditions.passes(number);
    match taking_by(conditions.is_disabled(number), passes, &verdict) {
        Taking::Counts => Some(CountedStop { reason, verdict }),
        Taking::Passes => {
            conditions.put_passes(number, passes.saturating_sub(1));
            None
        }
        Taking::Fails => None,
    }
}

/// What the condition of a breakpoint or watch comes to, where it has one and is not disabled.
fn judge<M: ExpressionMachine>(
    alloc: Global,
    number: u32,
    conditions: &Conditions,
    machine: &M,
) -> Option<Verdict>
    ensures { (s : Setting) (d : Debugger) → M.stands machine.now s (bare d) → IsJudged (asked_condition number (table_of conditions.now)) s d result }
{
    match conditions.asked_condition(number) {
        Some(text) => Some(judge_condition(alloc, text, machine)),
        None => None,
    }
}

/// What a breakpoint or watch makes of a stop, by whether it is disabled.
fn taking_by(is_disabled: bool, passes: u32, verdict: &Option<Verdict>) -> Taking
    ensures { result ≡ spec.taking_by is_disabled passes verdict.now }
{
    if is_disabled {
        Taking::Fails
    } else {
        taking_of(passes, verdict)
    }
}

/// What a breakpoint or watch makes of a stop, of which so many are still to be passed.
fn taking_of(passes: u32, verdict: &Option<Verdict>) -> Taking
    ensures { result ≡ spec.taking_of passes verdict.now }
{
    match verdict {
        Some(Verdict::NoValue(_)) => Taking::Counts,
        Some(Verdict::Fails) => Taking::Fails,
        Some(Verdict::Holds(_)) | None => {
            if passes == 0 {
                Taking::Counts
            } else {
                Taking::Passes
            }
        }
    }
}

/// The first of two, if it is there.
pub(crate) fn first_of(
    first: Option<CountedStop>,
    later: Option<CountedStop>,
) -> Option<CountedStop>
    ensures { result ≡ spec.first_of first later }
{
    match first {
        Some(counted) => Some(counted),
        None => later,
    }
}

/// The line where a machine stands, unless the program has ended.
fn line_of<M: RecordedMachine>(machine: &M) -> Option<u32>
    ensures { (s : Setting) (d : Debugger) → M.stands machine.now s d → line_now s.program (now s d) ≡ result }
{
    match machine.position() {
        Some(position) => Some(position.place.line),
        None => None,
    }
}

/// Whether this is a breakpoint on a line, if there is a line.
fn is_on_line(stop: Stop, line: Option<u32>) -> bool
    ensures { (s : Setting) (meant : model.Stop) → IsStop s stop meant → on_line line meant ≡ result }
{
    match (stop, line) {
        (Stop::Line(own), Some(here)) => here == own,
        (Stop::Line(_), None) | (Stop::Watch { .. }, _) => false,
    }
}
