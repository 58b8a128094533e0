//! What watches show, before the moves of a command and after each of them.
ghost use Rattle.std.specs.Prelude.{◌≡◌, ℕ, ◌≤◌, ◌∷◌, false, List, drop, slice_index};
ghost use Rattle.gang_model.specs.Source.Names.{same_text};
ghost use Rattle.gang_model.specs.Types.Tree.{Variable};
ghost use Rattle.gang_model.specs.Running.State.{State};
ghost use Rattle.gang_model.specs.Debugger.Debugger as model;
ghost use Rattle.gang_model.specs.Debugger.Debugger.{Debugger, Setting, differs, first_stop, now, shown_words, taken_back, target_words};
ghost use Rattle.debug_answers.specs.Meanings.{AreStops, IsWatch};
ghost use Rattle.debug_traits.specs.Machines.{IsShown};
ghost use Rattle.debug_session.specs.Moves.{noted, watch_words};
ghost use Rattle.debug_session.specs.Sessions.{bare};

use crate::table::{ROOM, StopTable};
use arrayvec::ArrayVec;
use debug_answers::Stop;
use debug_traits::{RecordedMachine, Shown};

/// The most lanes of a gang.
const WIDEST: usize = 16;

/// The words that a watch shows.
pub(crate) type Words = ArrayVec<u64, WIDEST>;

/// The words that each watch showed, in the order of their numbers.
pub(crate) type WordsBefore = ArrayVec<Words, ROOM>;

/// A word of a variable, 0 past its end.
fn word_or_zero<M: RecordedMachine>(machine: &M, shown: Shown, index: usize) -> u64
    ensures { (s : Setting) (d : Debugger) (v : Variable) → M.stands machine.now s (bare d) → IsShown s d v shown
        → result ≡ slice_index (shown_words (now s d) v) index }
{
    if index < shown.count {
        machine.word(shown, index)
    } else {
        0
    }
}

/// The words of a scalar, of which there are at most so many as a gang has lanes.
fn scalar_words<M: RecordedMachine>(machine: &M, shown: Shown) -> Words
    ensures { (s : Setting) (d : Debugger) (v : Variable) → M.stands machine.now s (bare d) → IsShown s d v shown → shown.count ≤ 16
        → result.items ≡ shown_words (now s d) v }
{
    let mut words = Words::new();
    for index in 0..shown.count.min(WIDEST) {
        words.push(machine.word(shown, index));
    }
    words
}

/// The words of a file-scope scalar, or of one of its lanes or elements.
fn watched_words<M: RecordedMachine>(machine: &M, variable: usize, at: Option<u32>) -> Words
    ensures { (s : Setting) (d : Debugger) (target : model.Target) (v : Variable) → M.stands machine.now s (bare d) → IsWatch s variable at target v
        → result.items ≡ target_words (now s d) target v }
{
    let Some(named) = machine.file_variable(variable) else {
        return Words::new();
    };
    match at {
        None => scalar_words(machine, named.shown),
        Some(index) => {
            let mut words = Words::new();
            words.push(word_or_zero(machine, named.shown, index as usize));
            words
        }
    }
}

/// Notes the words that each watch shows.
pub(crate) fn note_words<M: RecordedMachine>(
    machine: &M,
    stops: &StopTable,
    before: &mut WordsBefore,
)
    ensures { (s : Setting) (d : Debugger) (meant : List (ℕ × model.Stop)) → M.stands machine.now s (bare d) → AreStops s stops.now.items meant
        → noted before.new.items ≡ watch_words (now s d) meant }
{
    before.clear();
    for entry in stops.as_slice() {
        if let Stop::Watch { variable, at } = entry.stop {
            before.push(watched_words(machine, variable, at));
        }
    }
}

/// The least number of a watch that shows other words than were noted. Where there is none, what was noted is what they show.
pub(crate) fn changed_watch<M: RecordedMachine>(
    machine: &M,
    stops: &StopTable,
    before: &WordsBefore,
) -> Option<u32>
    ensures { (s : Setting) (d : Debugger) (old : State) (meant : List (ℕ × model.Stop)) → M.stands machine.now s (bare d) → AreStops s stops.now.items meant
        → noted before.now.items ≡ watch_words old meant → result ≡ first_stop (differs old (now s d)) meant }
{
    let mut next = 0;
    for entry in stops.as_slice() {
        if let Stop::Watch { variable, at } = entry.stop {
            if !shows(machine, variable, at, noted_at(before, next)) {
                return Some(entry.number);
            }
            next += 1;
        }
    }
    None
}

/// The same after a move, which may have changed what a watch shows or not.
#[inline(always)]
pub(crate) fn watch_after_move<M: RecordedMachine>(
    machine: &M,
    stops: &StopTable,
    before: &WordsBefore,
    may_change: bool,
) -> Option<u32>
    ensures { (s : Setting) (d : Debugger) (old : State) (meant : List (ℕ × model.Stop)) → M.stands machine.now s (bare d) → AreStops s stops.now.items meant
        → noted before.now.items ≡ watch_words old meant → (may_change ≡ false → watch_words old meant ≡ watch_words (now s d) meant)
        → result ≡ first_stop (differs old (now s d)) meant }
{
    if may_change {
        changed_watch(machine, stops, before)
    } else {
        None
    }
}

/// Whether the newest event may have changed what a watch shows. There are as many watches as words were noted of.
pub(crate) fn may_change_watch<M: RecordedMachine>(
    machine: &M,
    stops: &StopTable,
    before: &WordsBefore,
) -> bool
    ensures { result ≡ false → (s : Setting) (d : Debugger) (old : State) (meant : List (ℕ × model.Stop)) → M.stands machine.now s (bare d)
        → AreStops s stops.now.items meant → noted before.now.items ≡ watch_words old meant
        → watch_words (now s (taken_back d)) meant ≡ watch_words (now s d) meant }
{
    !before.is_empty() && machine.may_have_set_file()
}

/// The words that were noted at a place.
fn noted_at(before: &WordsBefore, place: usize) -> &[u64]
    ensures { (old : List ℕ) (others : List (List ℕ)) → drop place (noted before.now.items) ≡ old ∷ others → result.now ≡ old }
{
    match before.get(place) {
        Some(noted) => noted.as_slice(),
        None => &[],
    }
}

/// Whether a file-scope scalar, or one of its lanes or elements, shows these words.
fn shows<M: RecordedMachine>(machine: &M, variable: usize, at: Option<u32>, noted: &[u64]) -> bool
    ensures { (s : Setting) (d : Debugger) (target : model.Target) (v : Variable) → M.stands machine.now s (bare d) → IsWatch s variable at target v
        → result ≡ same_text noted.now (target_words (now s d) target v) }
{
    let Some(named) = machine.file_variable(variable) else {
        return false;
    };
    match at {
        None => scalar_shows(machine, named.shown, noted),
        Some(index) => noted == [word_or_zero(machine, named.shown, index as usize)].as_slice(),
    }
}

/// Whether all words of a variable are these.
fn scalar_shows<M: RecordedMachine>(machine: &M, shown: Shown, noted: &[u64]) -> bool
    ensures { (s : Setting) (d : Debugger) (v : Variable) → M.stands machine.now s (bare d) → IsShown s d v shown
        → result ≡ same_text noted.now (shown_words (now s d) v) }
{
    if noted.len() != shown.count {
        return false;
    }
    for (index, old) in noted.iter().enumerate() {
        if machine.word(shown, index) != *old {
            return false;
        }
    }
    true
}
