//! `continue` and `reverse-continue` by single steps, where it is watched what frames show.
ghost use Rattle.std.specs.Prelude.{◌≡◌, map, option_map, IfOk, OnOk};
ghost use Rattle.std.specs.List.{list_any};
ghost use Rattle.gang_model.specs.Debugger.Debugger as model;
ghost use Rattle.gang_model.specs.Debugger.Debugger.{Debugger, Setting, do_command, now};
ghost use Rattle.debug_session.specs.Moves.{noted, watch_words};
ghost use Rattle.debug_session.specs.Sessions.{StandsFor};
ghost use Rattle.conditional_stops.specs.Noted.{HaveCodes, IsNoted, IsWatched, IsWatchedOn};
ghost use Rattle.conditional_stops.specs.Reasons.{Asks};
ghost use Rattle.conditional_stops.specs.SightViews.{sights_view};
ghost use Rattle.conditional_stops.specs.Walking as spec;
ghost use Rattle.conditional_stops.specs.Walking.{EndsHere, StepsOnce, WalksOn, step_of};
ghost use Rattle.conditional_stops.specs.Views.{table_of};
ghost use Rattle.conditional_stops.specs.Watches.{is_away, seen};

use crate::asking::{ask_all, ask_frames, first_of};
use crate::going::{Direction, MoveEnd, Moved};
use crate::judging::top_depth;
use crate::reasons::CountedStop;
use crate::table::Conditions;
use crate::watches::{Sights, Watch, no_codes, note_sights};
use crate::watching::{WordsBefore, note_words};
use debug_answers::{Answer, Refusal};
use debug_session::Session;
use debug_traits::RecordedMachine;
use expression_watches::KeptCodes;
use frame_expressions::ExpressionMachine;
use std::alloc::{AllocError, Global};
use std::mem;

/// What is noted of all that is watched.
#[derive(Drop)]
struct Noted {
    words: WordsBefore,
    sights: Sights,
}

impl Noted {
    /// Nothing is noted.
    fn new(alloc: Global) -> Self {
        Noted {
            words: Vec::new(alloc),
            sights: Vec::new(alloc),
        }
    }
}

/// What a walk has of its watches.
#[derive(Drop)]
struct Watched {
    /// What is noted where it stands, before a step.
    before: Noted,
    /// Room for what is noted behind the step.
    here: Noted,
    /// The codes of their texts.
    codes: Vec<KeptCodes>,
}

/// Goes on by single steps, so many at most, until a stop counts, what is watched of a frame has changed, the frame of a watch is not
/// there, or something else ends the move. Memory is wanted to read conditions, and to note what watches show.
pub fn walk_on<'a, M: ExpressionMachine>(
    alloc: Global,
    direction: Direction,
    most: u32,
    watches: &[Watch],
    conditions: &mut Conditions,
    session: &mut Session<M>,
) -> Moved<'a>
    ensures { (s : Setting) (d : Debugger) → StandsFor M.stands session.old s d
        → WalksOn M.stands s direction watches.now most d (table_of conditions.old) result session.new (table_of conditions.new) }
{
    match begin(alloc, watches, session) {
        Ok(mut watched) => walk(
            alloc,
            direction,
            most,
            watches,
            &mut watched,
            conditions,
            session,
        ),
        Err(_) => Moved {
            end: end_without_memory(most),
            passed: 0,
        },
    }
}

/// The end of a move for which nothing could be noted.
fn end_without_memory<'a>(most: u32) -> MoveEnd<'a>
    ensures { result ≡ spec.end_without_memory most }
{
    if most == 0 {
        MoveEnd::MostPassed
    } else {
        MoveEnd::NoMemory
    }
}

/// Notes all that is watched where a walk begins.
///
/// # Errors
///
/// Out of memory.
fn begin<M: ExpressionMachine>(
    alloc: Global,
    watches: &[Watch],
    session: &Session<M>,
) -> Result<Watched, AllocError>
    ensures { (s : Setting) (d : Debugger) → StandsFor M.stands session.now s d → IfOk result (IsWatched s d watches.now) }
{
    let mut codes = no_codes(alloc, watches)?;
    let mut before = Noted::new(alloc);
    note(alloc, watches, session, &mut codes, &mut before)?;
    Ok(Watched {
        before,
        here: Noted::new(alloc),
        codes,
    })
}

/// Notes all that is watched where a session stands.
///
/// # Errors
///
/// Out of memory.
fn note<M: ExpressionMachine>(
    alloc: Global,
    watches: &[Watch],
    session: &Session<M>,
    codes: &mut Vec<KeptCodes>,
    noted: &mut Noted,
) -> Result<(), AllocError>
    ensures { (s : Setting) (d : Debugger) → StandsFor M.stands session.now s d → HaveCodes s.program watches.now codes.old.items
        → OnOk result (IsNoted s d watches.now noted.new × HaveCodes s.program watches.now codes.new.items) }
{
    note_words(session.machine(), session.stops(), &mut noted.words)?;
    note_sights(alloc, session.machine(), watches, codes, &mut noted.sights)
}

/// Goes on by single steps, where all that is watched is noted.
fn walk<'a, M: ExpressionMachine>(
    alloc: Global,
    direction: Direction,
    most: u32,
    watches: &[Watch],
    watched: &mut Watched,
    conditions: &mut Conditions,
    session: &mut Session<M>,
) -> Moved<'a>
    ensures { (s : Setting) (d : Debugger) → StandsFor M.stands session.old s d → IsWatched s d watches.now watched.old
        → WalksOn M.stands s direction watches.now most d (table_of conditions.old) result session.new (table_of conditions.new) }
{
    for passed in 0..most {
        if let Some(end) = step_once(alloc, direction, watches, watched, conditions, session) {
            return Moved { end, passed };
        }
    }
    Moved {
        end: MoveEnd::MostPassed,
        passed: most,
    }
}

/// Makes one step: what ends the move, unless the next one can be made.
fn step_once<'a, M: ExpressionMachine>(
    alloc: Global,
    direction: Direction,
    watches: &[Watch],
    watched: &mut Watched,
    conditions: &mut Conditions,
    session: &mut Session<M>,
) -> Option<MoveEnd<'a>>
    ensures step { (s : Setting) (d : Debugger) → StandsFor M.stands session.old s d → IsWatched s d watches.now watched.old
        → StepsOnce M.stands s direction watches.now d (table_of conditions.old) result session.new (table_of conditions.new) }
    ensures watched { (s : Setting) (d : Debugger) → StandsFor M.stands session.old s d → IsWatched s d watches.now watched.old
        → IsWatchedOn s (do_command s (step_of direction) d).next watches.now result watched.new }
{
    let answer = session.do_command(direction.step());
    if !is_here(&answer) {
        return Some(MoveEnd::Answered(answer));
    }
    match note(
        alloc,
        watches,
        session,
        &mut watched.codes,
        &mut watched.here,
    ) {
        Ok(()) => end_noted(alloc, direction, watches, watched, conditions, session),
        Err(_) => Some(MoveEnd::Answered(Answer::Refused(Refusal::Memory))),
    }
}

/// What ends a move behind a step, where all that is watched is noted behind it too. That stands before the next step then.
fn end_noted<'a, M: ExpressionMachine>(
    alloc: Global,
    direction: Direction,
    watches: &[Watch],
    watched: &mut Watched,
    conditions: &mut Conditions,
    session: &Session<M>,
) -> Option<MoveEnd<'a>>
    ensures end { (s : Setting) (began d : Debugger) → StandsFor M.stands session.now s d → noted watched.old.before.words.items ≡ watch_words (now s began) d.stops
        → sights_view watched.old.before.sights.items ≡ map (seen s began) watches.now → IsNoted s d watches.now watched.old.here
        → EndsHere s direction watches.now began d (table_of conditions.old) result (table_of conditions.new) }
    ensures watched { (s : Setting) (d : Debugger) → IsNoted s d watches.now watched.old.here → HaveCodes s.program watches.now watched.old.codes.items → IsWatched s d watches.now watched.new }
{
    let end = end_here(
        alloc,
        direction,
        watches,
        &watched.before,
        &watched.here,
        conditions,
        session,
    );
    mem::swap(&mut watched.before, &mut watched.here);
    end
}

/// What ends a move behind a step, where all that is watched is noted before it and behind it.
fn end_here<'a, M: ExpressionMachine>(
    alloc: Global,
    direction: Direction,
    watches: &[Watch],
    before: &Noted,
    here: &Noted,
    conditions: &mut Conditions,
    session: &Session<M>,
) -> Option<MoveEnd<'a>>
    ensures { (s : Setting) (began d : Debugger) → StandsFor M.stands session.now s d → noted before.now.words.items ≡ watch_words (now s began) d.stops
        → sights_view before.now.sights.items ≡ map (seen s began) watches.now → sights_view here.now.sights.items ≡ map (seen s d) watches.now
        → EndsHere s direction watches.now began d (table_of conditions.old) result (table_of conditions.new) }
{
    match ask_each(alloc, direction, watches, before, here, conditions, session) {
        Some(counted) => Some(MoveEnd::Stopped(counted)),
        None => end_by(last_answer(direction, watches, session)),
    }
}

/// Asks all breakpoints and watches at which a step stopped: the first that counts.
fn ask_each<M: ExpressionMachine>(
    alloc: Global,
    direction: Direction,
    watches: &[Watch],
    before: &Noted,
    here: &Noted,
    conditions: &mut Conditions,
    session: &Session<M>,
) -> Option<CountedStop>
    ensures { (s : Setting) (began d : Debugger) → StandsFor M.stands session.now s d → noted before.now.words.items ≡ watch_words (now s began) d.stops
        → sights_view before.now.sights.items ≡ map (seen s began) watches.now → sights_view here.now.sights.items ≡ map (seen s d) watches.now
        → Asks s d (spec.reasons_on direction s began d watches.now) (table_of conditions.old) result (table_of conditions.new) }
{
    let stop = ask_all(alloc, &before.words, conditions, session);
    let watch = ask_frames(
        alloc,
        direction,
        watches,
        &before.sights,
        &here.sights,
        conditions,
        session,
    );
    first_of(stop, watch)
}

/// The end of a move by an answer, if there is one.
fn end_by<'a>(answer: Option<Answer<'a>>) -> Option<MoveEnd<'a>>
    ensures { result ≡ option_map (λ given. MoveEnd.Answered given) answer.entry }
{
    match answer {
        Some(answer) => Some(MoveEnd::Answered(answer)),
        None => None,
    }
}

/// The answer after a step where nothing counts, if it ends the move: the frame of a watch is not there, or no step is left.
fn last_answer<'a, M: RecordedMachine>(
    direction: Direction,
    watches: &[Watch],
    session: &Session<M>,
) -> Option<Answer<'a>>
    ensures { (s : Setting) (d : Debugger) → StandsFor M.stands session.now s d → result ≡ spec.last_answer direction s d watches.now }
{
    if is_one_gone(watches, top_depth(session.machine())) {
        Some(Answer::Here)
    } else {
        no_step(direction, session)
    }
}

/// Whether the frame of a watch is not there, where there are so many.
fn is_one_gone(watches: &[Watch], depth: usize) -> bool
    ensures { result ≡ list_any (is_away depth) watches.now }
{
    watches.iter().any(|watch| depth < watch.depth())
}

/// The answer where no step is left.
fn no_step<'a, M: RecordedMachine>(direction: Direction, session: &Session<M>) -> Option<Answer<'a>>
    ensures { (s : Setting) (d : Debugger) → StandsFor M.stands session.now s d → result ≡ spec.no_step direction s d }
{
    match direction {
        Direction::Forward if has_ended(session.machine()) => Some(Answer::Here),
        Direction::Backward if session.machine().kept_steps() == 0 => Some(Answer::HistoryEnd),
        Direction::Forward | Direction::Backward => None,
    }
}

/// Whether the program has ended.
fn has_ended<M: RecordedMachine>(machine: &M) -> bool
    ensures { (s : Setting) (d : Debugger) → M.stands machine.now s d → result ≡ model.has_ended (now s d) }
{
    machine.position().is_none()
}

/// Whether a step was made.
fn is_here(answer: &Answer<'_>) -> bool
    ensures { result ≡ spec.tells_here answer.now }
{
    matches!(answer, Answer::Here)
}
