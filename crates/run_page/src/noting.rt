//! What is noted of a run, step by step.
ghost use Rattle.std.specs.Prelude.{◌≡◌, ◌≤◌, [], true, false, not, IfOk, OnErr, Option};
ghost use Rattle.gang_model.specs.Debugger.Debugger.{Debugger, Setting, now};
ghost use Rattle.debug_session.specs.Sessions.{StandsFor};
ghost use Rattle.lane_picture.specs.Tries.{HasBegun};
ghost use Rattle.gang_model.specs.Running.State.{State};
ghost use Rattle.run_page.specs.Calls.{NotesCalls, NotesWidth};
ghost use Rattle.run_page.specs.Moments.{ComesTo, NotesMoment};
ghost use Rattle.run_page.specs.Noting.{HasNoted};
ghost use Rattle.run_page.specs.Recording.{NotesChanges, sights_of};
ghost use Rattle.run_page.specs.Rows.{AreDistinct, AreRowsOf};
ghost use Rattle.debug_traits.specs.Machines.{position_text};
ghost use Rattle.gang_model.specs.Texts.Text.{where_text};

use crate::calls::{common_front, read_calls, stand_of};
use crate::choosing::is_told;
use crate::comparing::note_changes;
use crate::moments::{Call, Moment};
use crate::page::Subject;
use crate::reading::read_rows;
use crate::record::Record;
use crate::views::Row;
use debug_session::Session;
use debug_traits::{FramedMachine, Position};
use lane_picture::{StepsEnd, end_after, try_step};
use std::alloc::{AllocError, Global};

/// What was told last: the calls of the frames below the top one, and the words of what could be seen.
#[derive(Drop)]
struct Told {
    calls: Vec<Call>,
    rows: Vec<Row>,
}

impl Told {
    /// Of a run of which nothing was told.
    fn new(alloc: Global) -> Told
        ensures rows { result.rows.items ≡ [] }
        ensures calls { result.calls.items ≡ [] }
    {
        Told {
            calls: Vec::new(alloc),
            rows: Vec::new(alloc),
        }
    }
}

/// Tries one step after another, so many at most, and notes where the program stands at the moments that are told and at the last one,
/// and what has changed from each to the next: of each variable the first words, so many at most.
///
/// # Errors
///
/// Out of memory. A step behind a moment that could not be noted was not tried.
pub(crate) fn note_run<M: FramedMachine>(
    alloc: Global,
    session: &mut Session<M>,
    subject: &Subject<'_>,
) -> Result<(Record, StepsEnd), AllocError>
    ensures noted { IfOk result (λ noted. (s : Setting) (d : Debugger) → StandsFor M.stands session.old s d
        → HasNoted M.stands s subject.now d noted.0 noted.1 session.new) }
    ensures memory { OnErr result ((s : Setting) (d : Debugger) → StandsFor M.stands session.old s d
        → HasBegun M.stands s subject.now.most_steps d session.new) }
{
    let mut record = Record::new(alloc);
    let mut told = Told::new(alloc);
    let most_words = subject.most_words as usize;
    for taken in 0..subject.most_steps {
        let is_told = is_told(subject, taken);
        let before = taken as usize;
        note_if(
            alloc,
            is_told,
            session.machine(),
            before,
            most_words,
            &mut told,
            &mut record,
        )?;
        if let Some(end) = try_next(session) {
            note_if(
                alloc,
                !is_told,
                session.machine(),
                before,
                most_words,
                &mut told,
                &mut record,
            )?;
            return Ok((record, end));
        }
    }
    let done = subject.most_steps as usize;
    note_if(
        alloc,
        true,
        session.machine(),
        done,
        most_words,
        &mut told,
        &mut record,
    )?;
    let end = end_after(session.machine());
    Ok((record, end))
}

/// Tries the next step: how the steps ended, if it was not done.
fn try_next<M: FramedMachine>(session: &mut Session<M>) -> Option<StepsEnd>
    ensures { (s : Setting) (d : Debugger) → StandsFor M.stands session.old s d → ComesTo M.stands s d result session.old session.new }
{
    match session.machine().position() {
        None => Some(StepsEnd::Ended),
        Some(_) => try_step(session),
    }
}

/// Notes a moment with so many steps done before it, if it is wanted.
fn note_if<M: FramedMachine>(
    alloc: Global,
    is_wanted: bool,
    machine: &M,
    taken: usize,
    most_words: usize,
    told: &mut Told,
    noted: &mut Record,
) -> Result<(), AllocError>
    ensures moment { IfOk result (λ _. is_wanted ≡ true → (s : Setting) (d : Debugger) → M.stands machine.now s d
        → NotesMoment s d taken noted.old.moments.items noted.new.moments.items) }
    ensures changes { IfOk result (λ _. is_wanted ≡ true → (s : Setting) (d : Debugger) (before : Option State) → M.stands machine.now s d → AreDistinct (sights_of noted.old)
        → AreRowsOf (sights_of noted.old) most_words s.program before told.old.rows.items → NotesChanges s d taken most_words before noted.old noted.new told.new.rows.items) }
    ensures calls { IfOk result (λ _. is_wanted ≡ true → (s : Setting) (d : Debugger) → M.stands machine.now s d
        → NotesCalls s d taken told.old.calls.items noted.old noted.new told.new.calls.items) }
    ensures width { IfOk result (λ _. is_wanted ≡ true → (s : Setting) (d : Debugger) → M.stands machine.now s d
        → NotesWidth (where_text s.program (now s d)) noted.old.width noted.new.width) }
    ensures distinct { IfOk result (λ _. AreDistinct (sights_of noted.old) → AreDistinct (sights_of noted.new)) }
    ensures skipped { IfOk result (λ _. is_wanted ≡ false → (noted.new ≡ noted.old) × (told.new ≡ told.old)) }
{
    if !is_wanted {
        return Ok(());
    }
    note_moment(alloc, machine, taken, most_words, told, noted)
}

/// Notes where a machine stands with so many steps done before, and what has changed.
fn note_moment<M: FramedMachine>(
    alloc: Global,
    machine: &M,
    taken: usize,
    most_words: usize,
    told: &mut Told,
    noted: &mut Record,
) -> Result<(), AllocError>
    ensures moment { IfOk result (λ _. (s : Setting) (d : Debugger) → M.stands machine.now s d
        → NotesMoment s d taken noted.old.moments.items noted.new.moments.items) }
    ensures changes { IfOk result (λ _. (s : Setting) (d : Debugger) (before : Option State) → M.stands machine.now s d → AreDistinct (sights_of noted.old)
        → AreRowsOf (sights_of noted.old) most_words s.program before told.old.rows.items → NotesChanges s d taken most_words before noted.old noted.new told.new.rows.items) }
    ensures calls { IfOk result (λ _. (s : Setting) (d : Debugger) → M.stands machine.now s d
        → NotesCalls s d taken told.old.calls.items noted.old noted.new told.new.calls.items) }
    ensures width { IfOk result (λ _. (s : Setting) (d : Debugger) → M.stands machine.now s d
        → NotesWidth (where_text s.program (now s d)) noted.old.width noted.new.width) }
    ensures distinct { IfOk result (λ _. AreDistinct (sights_of noted.old) → AreDistinct (sights_of noted.new)) }
{
    let position = machine.position();
    let stand = stand_of(alloc, position, &mut noted.functions)?;
    noted.width = width_at(position, noted.width);
    let calls = read_calls(alloc, machine, &mut noted.functions)?;
    let kept_calls = common_front(told.calls.as_slice(), calls.as_slice());
    let first_call = noted.calls.len();
    noted
        .calls
        .extend_from_slice(&calls.as_slice()[kept_calls..])?;
    let rows = read_rows(alloc, machine, most_words, &mut noted.variables)?;
    let first_change = noted.changes.len();
    note_changes(told.rows.as_slice(), rows.as_slice(), &mut noted.changes)?;
    noted.moments.push(Moment {
        taken,
        stand,
        kept_calls,
        first_call,
        end_of_calls: noted.calls.len(),
        first_change,
        end_of_changes: noted.changes.len(),
    })?;
    told.calls = calls;
    told.rows = rows;
    Ok(())
}

/// How wide the gang is, as a position tells it; where there is none, as it is known.
fn width_at(position: Option<Position<'_>>, known: usize) -> usize
    ensures { NotesWidth (position_text position.entry) known result }
{
    match position {
        None => known,
        Some(position) => position.width,
    }
}
