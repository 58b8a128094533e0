//! What watches show where a command begins, and whether they show it still.
ghost use Rattle.std.specs.Prelude.{◌≡◌, ◌≤◌, ℕ, ◌∷◌, List, drop, slice_index, true, OnErr, OnOk};
ghost use Rattle.std.specs.List.{list_any};
ghost use Rattle.gang_model.specs.Source.Names.{same_text};
ghost use Rattle.gang_model.specs.Types.Tree.{Variable};
ghost use Rattle.gang_model.specs.Debugger.Debugger as model;
ghost use Rattle.gang_model.specs.Debugger.Debugger.{Debugger, Setting, now, shown_words, target_words};
ghost use Rattle.debug_answers.specs.Meanings.{AreStops, IsWatch};
ghost use Rattle.debug_traits.specs.Machines.{IsShown};
ghost use Rattle.debug_session.specs.Moves.{noted, watch_words};
ghost use Rattle.debug_session.specs.Sessions.{bare};
ghost use Rattle.conditional_stops.specs.Watching.{is_watch};

use arrayvec::ArrayVec;
use debug_answers::{NumberedStop, Stop};
use debug_traits::{RecordedMachine, Shown};
use std::alloc::AllocError;

/// The most lanes of a gang.
const WIDEST: usize = 16;

/// The words that a watch shows.
type Words = ArrayVec<u64, WIDEST>;

/// The words that each watch showed, in the order of their numbers.
pub(crate) type WordsBefore = Vec<Words>;

/// Notes the words that each watch shows.
///
/// # Errors
///
/// Out of memory, where there is a watch.
pub(crate) fn note_words<M: RecordedMachine>(
    machine: &M,
    stops: &[NumberedStop],
    before: &mut WordsBefore,
) -> Result<(), AllocError>
    ensures words { (s : Setting) (d : Debugger) (meant : List (ℕ × model.Stop)) → M.stands machine.now s (bare d) → AreStops s stops.now meant
        → OnOk result (noted before.new.items ≡ watch_words (now s d) meant) }
    ensures memory { OnErr result (list_any is_watch stops.now ≡ true) }
{
    before.clear();
    for entry in stops {
        if let Stop::Watch { variable, at } = entry.stop {
            before.push(watched_words(machine, variable, at))?;
        }
    }
    Ok(())
}

/// The words that were noted at a place.
pub(crate) fn noted_at(before: &WordsBefore, place: usize) -> &[u64]
    ensures { (old : List ℕ) (others : List (List ℕ)) → drop place (noted before.now.items) ≡ old ∷ others → result.now ≡ old }
{
    match before.get(place) {
        Some(noted) => noted.as_slice(),
        None => &[],
    }
}

/// Whether a file-scope scalar, or one of its lanes or elements, shows these words.
pub(crate) fn shows<M: RecordedMachine>(
    machine: &M,
    variable: usize,
    at: Option<u32>,
    noted: &[u64],
) -> bool
    ensures { (s : Setting) (d : Debugger) (target : model.Target) (v : Variable) → M.stands machine.now s (bare d) → IsWatch s variable at target v
        → result ≡ same_text noted.now (target_words (now s d) target v) }
{
    noted == watched_words(machine, variable, at).as_slice()
}

/// The words of a file-scope scalar, or of one of its lanes or elements.
fn watched_words<M: RecordedMachine>(machine: &M, variable: usize, at: Option<u32>) -> Words
    ensures { (s : Setting) (d : Debugger) (target : model.Target) (v : Variable) → M.stands machine.now s (bare d) → IsWatch s variable at target v
        → result.items ≡ target_words (now s d) target v }
{
    let Some(named) = machine.file_variable(variable) else {
        return Words::new();
    };
    match at {
        None => scalar_words(machine, named.shown),
        Some(index) => {
            let mut words = Words::new();
            words.push(word_or_zero(machine, named.shown, index as usize));
            words
        }
    }
}

/// The words of a scalar, of which there are at most so many as a gang has lanes.
fn scalar_words<M: RecordedMachine>(machine: &M, shown: Shown) -> Words
    ensures { (s : Setting) (d : Debugger) (v : Variable) → M.stands machine.now s (bare d) → IsShown s d v shown → shown.count ≤ 16
        → result.items ≡ shown_words (now s d) v }
{
    let mut words = Words::new();
    for index in 0..shown.count.min(WIDEST) {
        words.push(machine.word(shown, index));
    }
    words
}

/// A word of a variable, 0 past its end.
fn word_or_zero<M: RecordedMachine>(machine: &M, shown: Shown, index: usize) -> u64
    ensures { (s : Setting) (d : Debugger) (v : Variable) → M.stands machine.now s (bare d) → IsShown s d v shown
        → result ≡ slice_index (shown_words (now s d) v) index }
{
    if index < shown.count {
        machine.word(shown, index)
    } else {
        0
    }
}
