//! Moves forward and backward.
ghost use Rattle.std.specs.Prelude.{◌≡◌, ℕ, suc, ◌+◌, ◌-◌, ◌<◌, ◌≤◌, true, false, Option, Bool, IfSome, None};
ghost use Rattle.undo_log.specs.History.{steps_in};
ghost use Rattle.gang_model.specs.Running.State.{State};
ghost use Rattle.gang_model.specs.Debugger.Debugger as model;
ghost use Rattle.gang_model.specs.Debugger.Debugger.{Debugger, Setting, after_move, backward, differs, ends_or_goes_on, first_stop, forward, kept_steps, moved, now, stepped_back};
ghost use Rattle.gang_model.specs.Debugger.Events.{Step};
ghost use Rattle.debug_answers.specs.Meanings.{AreStops, Means};
ghost use Rattle.debug_session.specs.Bounds.{TakesBack};
ghost use Rattle.debug_session.specs.Goals.{goal_option, goal_view};
ghost use Rattle.debug_session.specs.Moves.{Done, IfGoesOn, IsPlainEnd, IsReached, MeansAfter, Moved, noted, watch_words};
ghost use Rattle.debug_session.specs.Sessions.{bare, is_refused};

use crate::goal::Goal;
use crate::places::{Reached, reached_by};
use crate::table::StopTable;
use crate::watching::{WordsBefore, may_change_watch, note_words, watch_after_move};
use debug_answers::Answer;
use debug_traits::{RecordedMachine, StepEnd};
use undo_log::Undone;

/// Whether a command ends after a move, or goes on to a goal.
#[derive(Clone, Copy, Debug)]
enum AfterMove<'a> {
    Ends(Answer<'a>),
    GoesOn(Goal),
}

/// Moves forward to a goal, so many moves at most.
pub(crate) fn move_forward<'a, M: RecordedMachine>(
    machine: &mut M,
    stops: &StopTable,
    before: &mut WordsBefore,
    most_steps: u32,
    goal: Goal,
) -> Answer<'a>
    ensures replied { (s : Setting) (d : Debugger) → M.stands machine.old s (bare d) → AreStops s stops.now.items d.stops
        → Done M.stands s d (forward most_steps s (goal_view goal) d) result machine.new }
    ensures plain { is_refused result ≡ false }
    ensures moves { M.moves machine.new ≤ M.moves machine.old + most_steps }
{
    note_words(machine, stops, before);
    let mut left = goal;
    for _done in 0..most_steps {
        match step_forward(machine, stops, before, left) {
            AfterMove::Ends(answer) => return answer,
            AfterMove::GoesOn(next) => left = next,
        }
    }
    Answer::StepLimit
}

/// Moves backward to a goal, as far as steps are kept.
pub(crate) fn move_backward<'a, M: RecordedMachine>(
    machine: &mut M,
    stops: &StopTable,
    before: &mut WordsBefore,
    goal: Goal,
) -> Answer<'a>
    ensures replied { (s : Setting) (d : Debugger) → M.stands machine.old s (bare d) → AreStops s stops.now.items d.stops → 0 < kept_steps d
        → Done M.stands s d (backward d.kept s (goal_view goal) d) result machine.new }
    ensures plain { is_refused result ≡ false }
    ensures moves { 0 < steps_in (M.history machine.old).past → TakesBack M.moves M.history machine.old machine.new }
{
    note_words(machine, stops, before);
    let mut left = goal;
    for _done in 0..machine.kept() {
        match step_backward(machine, stops, before, left) {
            AfterMove::Ends(answer) => return answer,
            AfterMove::GoesOn(next) => left = next,
        }
    }
    Answer::HistoryEnd
}

/// Tries the next step, on the way to a goal.
fn step_forward<'a, M: RecordedMachine>(
    machine: &mut M,
    stops: &StopTable,
    before: &WordsBefore,
    goal: Goal,
) -> AfterMove<'a>
    ensures moved { (s : Setting) (d : Debugger) (n : ℕ) → M.stands machine.old s (bare d) → AreStops s stops.now.items d.stops
        → noted before.now.items ≡ watch_words (now s d) d.stops
        → Moved M.stands s d (moved Step d) (forward (suc n) s (goal_view goal) d) (forward n s) result machine.new }
    ensures noted { (s : Setting) (d : Debugger) → M.stands machine.old s (bare d) → AreStops s stops.now.items d.stops
        → noted before.now.items ≡ watch_words (now s d) d.stops
        → IfGoesOn result (noted before.now.items ≡ watch_words (now s (moved Step d)) d.stops) }
    ensures plain { IsPlainEnd result }
    ensures moves { M.moves machine.new ≡ suc (M.moves machine.old) }
{
    match machine.step() {
        StepEnd::Fault(fault) => AfterMove::Ends(Answer::AtFault(fault)),
        StepEnd::Ended => AfterMove::Ends(Answer::Here),
        StepEnd::Done => {
            let at = reached_by(machine);
            let has_ended = at.line.is_none();
            let may_change = may_change_watch(machine, stops, before);
            let watch = watch_after_move(machine, stops, before, may_change);
            after_move(stops, watch, at, goal, has_ended, Answer::Here)
        }
    }
}

/// Takes the last step back, on the way to a goal.
fn step_backward<'a, M: RecordedMachine>(
    machine: &mut M,
    stops: &StopTable,
    before: &WordsBefore,
    goal: Goal,
) -> AfterMove<'a>
    ensures moved { (s : Setting) (d : Debugger) (n : ℕ) → M.stands machine.old s (bare d) → AreStops s stops.now.items d.stops → 0 < kept_steps d
        → noted before.now.items ≡ watch_words (now s d) d.stops
        → Moved M.stands s d (stepped_back d) (backward (suc n) s (goal_view goal) d) (backward n s) result machine.new }
    ensures more { (s : Setting) (d : Debugger) → M.stands machine.old s (bare d) → 0 < kept_steps d → IfGoesOn result (0 < kept_steps (stepped_back d)) }
    ensures noted { (s : Setting) (d : Debugger) → M.stands machine.old s (bare d) → AreStops s stops.now.items d.stops → 0 < kept_steps d
        → noted before.now.items ≡ watch_words (now s d) d.stops
        → IfGoesOn result (noted before.now.items ≡ watch_words (now s (stepped_back d)) d.stops) }
    ensures plain { IsPlainEnd result }
    ensures moves { 0 < steps_in (M.history machine.old).past → TakesBack M.moves M.history machine.old machine.new }
    ensures kept { IfGoesOn result (0 < steps_in (M.history machine.new).past) }
{
    let may_change = take_step_back(machine, stops, before);
    let at = reached_by(machine);
    let none_kept = machine.kept_steps() == 0;
    let watch = watch_after_move(machine, stops, before, may_change);
    after_move(stops, watch, at, goal, none_kept, Answer::HistoryEnd)
}

/// Takes back the values that were set since the last step, and that step, and answers whether one of these events may have changed
/// what a watch shows. Only the machine before an event is taken back can tell.
fn take_step_back<M: RecordedMachine>(
    machine: &mut M,
    stops: &StopTable,
    before: &WordsBefore,
) -> bool
    ensures back { (s : Setting) (d : Debugger) → M.stands machine.old s (bare d) → 0 < kept_steps d → M.stands machine.new s (bare (stepped_back d)) }
    ensures watches { result ≡ false → (s : Setting) (d : Debugger) → M.stands machine.old s (bare d) → AreStops s stops.now.items d.stops → 0 < kept_steps d
        → noted before.now.items ≡ watch_words (now s d) d.stops → watch_words (now s d) d.stops ≡ watch_words (now s (stepped_back d)) d.stops }
    ensures moves { 0 < steps_in (M.history machine.old).past → TakesBack M.moves M.history machine.old machine.new }
{
    let mut may_change = may_change_watch(machine, stops, before);
    while let Ok(Undone::Poke) = machine.undo() {
        may_change |= may_change_watch(machine, stops, before);
    }
    may_change
}

/// What ends a command after a move that led there, and changed what this watch shows, if any; `last` does where there is no other
/// move.
fn after_move<'a>(
    stops: &StopTable,
    watch: Option<u32>,
    at: Reached,
    goal: Goal,
    no_move: bool,
    last: Answer<'a>,
) -> AfterMove<'a>
    ensures means { (s : Setting) (d : Debugger) (old : State) (meant : model.Answer) → AreStops s stops.now.items d.stops
        → watch ≡ first_stop (differs old (now s d)) d.stops → IsReached s d at → Means s d last.entry meant
        → MeansAfter s d result (after_move s.program (goal_view goal) old (now s d) d.stops no_move meant) }
    ensures plain { is_refused last.entry ≡ false → IsPlainEnd result }
    ensures more { IfGoesOn result (no_move ≡ false) }
    ensures unchanged { IfGoesOn result (watch ≡ None) }
{
    let breakpoint = stops.breakpoint_on(at.line);
    end_or_go_on(goal.towards(at.depth), breakpoint, watch, no_move, last)
}

/// What ends a command, in this order: its goal, a breakpoint, a watch, and that there is no other move.
fn end_or_go_on<'a>(
    goal: Option<Goal>,
    breakpoint: Option<u32>,
    watch: Option<u32>,
    no_move: bool,
    last: Answer<'a>,
) -> AfterMove<'a>
    ensures means { (s : Setting) (d : Debugger) (meant : model.Answer) → Means s d last.entry meant
        → MeansAfter s d result (ends_or_goes_on (goal_option goal) breakpoint watch no_move meant) }
    ensures plain { is_refused last.entry ≡ false → IsPlainEnd result }
    ensures more { IfGoesOn result (no_move ≡ false) }
    ensures unchanged { IfGoesOn result (watch ≡ None) }
{
    match (goal, breakpoint, watch) {
        (None, _, _) => AfterMove::Ends(Answer::Here),
        (_, Some(number), _) => AfterMove::Ends(Answer::AtBreakpoint(number)),
        (_, _, Some(number)) => AfterMove::Ends(Answer::AtWatch(number)),
        (Some(_), None, None) if no_move => AfterMove::Ends(last),
        (Some(goal), None, None) => AfterMove::GoesOn(goal),
    }
}
