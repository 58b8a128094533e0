//! What is seen of a run: a column for each step, and the values of a variable before it.
ghost use Rattle.std.specs.Prelude.{◌≡◌, ◌<◌, ◌≤◌, true, Some, [], IfOk, OnErr, is_none, length};
ghost use Rattle.gang_model.specs.Debugger.Debugger.{Debugger, Setting, bad_part, now};
ghost use Rattle.debug_commands.specs.TargetViews.{target_option};
ghost use Rattle.debug_session.specs.Sessions.{StandsFor, bare};
ghost use Rattle.lane_picture.specs.Runs.{run_end};
ghost use Rattle.lane_picture.specs.Seen.{HasSeen, IsNoted};
ghost use Rattle.lane_picture.specs.Tries.{HasBegun, Tries, end_view};
ghost use Rattle.lane_picture.specs.Watched.{HaveValues, NotesTarget, NotesWords, values_of};

use debug_answers::Answer;
use debug_commands::{Command, Target};
use debug_session::Session;
use debug_traits::{Fault, Position, RecordedMachine, Shown};
use gang_types::{IntType, Mask, Place, Rate};
use std::alloc::{AllocError, Global};

/// The most words of a variable that are shown.
pub(crate) const MOST_WORDS: usize = 16;

/// A step that was tried: its place, how many frames there were, and its lanes.
#[derive(Clone, Copy, Debug)]
pub(crate) struct Column {
    pub(crate) place: Place,
    pub(crate) depth: usize,
    pub(crate) lanes: Mask,
    /// The first value of the watched variable, among all values, and behind the last one.
    first_value: usize,
    end_of_values: usize,
}

/// A value of the watched variable.
#[derive(Clone, Copy, Debug, PartialEq, Eq)]
pub(crate) struct Value {
    pub(crate) value_type: IntType,
    pub(crate) word: u64,
    /// Whether it is that of a lane, and not of an element or of all lanes.
    pub(crate) is_of_lane: bool,
}

/// How the steps of a run ended that were tried one after another.
#[derive(Clone, Copy, Debug, PartialEq, Eq)]
pub enum StepsEnd {
    /// The program has ended.
    Ended,
    /// The next step faults.
    AtFault(Fault),
    /// As many steps were tried as may be.
    StepLimit,
}

/// What was seen of a run: how many lanes the gang has, a column for each step that was tried, and the values of the watched
/// variable before each.
#[derive(Drop)]
pub(crate) struct Seen {
    pub(crate) width: usize,
    pub(crate) columns: Vec<Column>,
    values: Vec<Value>,
}

impl Seen {
    fn new(alloc: Global) -> Seen
        ensures columns { result.columns.items ≡ [] }
        ensures values { result.values.items ≡ [] }
    {
        Seen {
            width: 0,
            columns: Vec::new(alloc),
            values: Vec::new(alloc),
        }
    }

    /// Whether the values of the watched variable are those of lanes.
    pub(crate) fn is_by_lanes(&self) -> bool {
        self.values.first().is_some_and(|value| value.is_of_lane)
    }

    /// The values of the watched variable before the step of a column; none where it is not in scope.
    pub(crate) fn values_at(&self, column: &Column) -> &[Value]
        ensures { column.now.first_value ≤ column.now.end_of_values → column.now.end_of_values ≤ length self.now.values.items
            → result.now ≡ values_of self.now.values.items column.now }
    {
        self.values
            .get(column.first_value..column.end_of_values)
            .unwrap_or(&[])
    }

    /// Notes where a machine stands.
    fn note<M: RecordedMachine>(
        &mut self,
        position: Position<'_>,
        watched: Option<Target<'_>>,
        machine: &M,
    ) -> Result<(), AllocError>
        ensures noted { IfOk result (λ _. IsNoted position.entry (length self.old.values.items) (length self.new.values.items) self.old.columns.items self.new.columns.items) }
        ensures values { IfOk result (λ _. NotesTarget M.stands machine.now (target_option watched.entry) self.old.values.items self.new.values.items) }
    {
        let first_value = self.values.len();
        if let Some(target) = watched {
            note_target(target, machine, &mut self.values)?;
        }
        self.width = position.width;
        self.columns.push(Column {
            place: position.place,
            depth: position.depth,
            lanes: position.lanes,
            first_value,
            end_of_values: self.values.len(),
        })?;
        Ok(())
    }
}

/// Notes the values of a target, if it can be shown.
fn note_target<M: RecordedMachine>(
    target: Target<'_>,
    machine: &M,
    values: &mut Vec<Value>,
) -> Result<(), AllocError>
    ensures noted { IfOk result (λ _. NotesTarget M.stands machine.now (target_option (Some target.entry)) values.old.items values.new.items) }
{
    let Some(shown) = machine.find(target.name) else {
        return Ok(());
    };
    match target.at {
        None => note_words(0, shown.count.min(MOST_WORDS), shown, machine, values),
        Some(index) if has_part(shown, index as usize) => {
            note_words(index as usize, index as usize + 1, shown, machine, values)
        }
        Some(_) => Ok(()),
    }
}

/// Notes words of a variable.
fn note_words<M: RecordedMachine>(
    from: usize,
    to: usize,
    shown: Shown,
    machine: &M,
    values: &mut Vec<Value>,
) -> Result<(), AllocError>
    requires order { from ≤ to }
    ensures noted { IfOk result (λ _. NotesWords M.stands machine.now shown from to values.old.items values.new.items) }
{
    let is_of_lane = is_by_lanes(shown);
    for index in from..to {
        values.push(Value {
            value_type: shown.value_type,
            word: machine.word(shown, index),
            is_of_lane,
        })?;
    }
    Ok(())
}

/// Whether a variable has a word for each lane.
fn is_by_lanes(shown: Shown) -> bool {
    !shown.is_array && shown.rate == Rate::Varying
}

/// Whether a variable has an element or a lane of this number.
fn has_part(shown: Shown, index: usize) -> bool
    ensures shown { result ≡ is_none (bad_part true (Some index) shown.is_array shown.rate shown.count) }
    ensures inside { result ≡ true → index < shown.count }
{
    index < shown.count && (shown.is_array || shown.rate == Rate::Varying)
}

/// Tries one step after another, so many at most, and notes where each stands before it is tried.
///
/// # Errors
///
/// Out of memory. A step that could not be noted was not tried.
pub(crate) fn see_steps<M: RecordedMachine>(
    alloc: Global,
    session: &mut Session<M>,
    watched: Option<Target<'_>>,
    most_steps: u32,
) -> Result<(Seen, StepsEnd), AllocError>
    ensures seen { IfOk result (λ seen. (s : Setting) (d : Debugger) → StandsFor M.stands session.old s d
        → HasSeen M.stands s most_steps d seen.0.columns.items seen.1 session.new) }
    ensures values { IfOk result (λ seen. (s : Setting) (d : Debugger) → StandsFor M.stands session.old s d → 1 ≤ s.limit
        → HaveValues s.program (target_option watched.entry) seen.0.values.items (now s d) seen.0.columns.items) }
    ensures memory { OnErr result ((s : Setting) (d : Debugger) → StandsFor M.stands session.old s d
        → HasBegun M.stands s most_steps d session.new) }
{
    let mut seen = Seen::new(alloc);
    for _count in 0..most_steps {
        let Some(position) = session.machine().position() else {
            return Ok((seen, StepsEnd::Ended));
        };
        seen.note(position, watched, session.machine())?;
        if let Some(end) = try_step(session) {
            return Ok((seen, end));
        }
    }
    let end = end_after(session.machine());
    Ok((seen, end))
}

/// Tries the next step: how the steps ended, if it was not done.
pub fn try_step<M: RecordedMachine>(session: &mut Session<M>) -> Option<StepsEnd>
    ensures { (s : Setting) (d : Debugger) → StandsFor M.stands session.old s d → Tries M.stands s d result session.new }
{
    match session.do_command(Command::Step(1)) {
        Answer::Here => None,
        Answer::AtFault(fault) => Some(StepsEnd::AtFault(fault)),
        _ => Some(StepsEnd::StepLimit),
    }
}

/// How the steps ended where as many were tried as may be.
pub fn end_after<M: RecordedMachine>(machine: &M) -> StepsEnd
    ensures { (s : Setting) (d : Debugger) → M.stands machine.now s (bare d) → end_view result ≡ run_end s.program 0 (now s d) }
{
    match machine.position() {
        None => StepsEnd::Ended,
        Some(_) => StepsEnd::StepLimit,
    }
}
