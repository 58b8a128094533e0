//! Events that are done again.
ghost use Rattle.std.specs.Prelude.{◌≡◌, ◌⊎◌, ◌≤◌, ◌+◌, ◌-◌, ◌∷◌, ℕ, true, All, filter, IfSome, List, [], Some, drop, length, max, option_copied, slice_get, take};
ghost use Rattle.gang_model.specs.Debugger.Events.{Event};
ghost use Rattle.gang_model.specs.Debugger.Debugger.{Debugger, Setting};
ghost use Rattle.debug_traits.specs.Beginnings.{StandsAt, with_events};
ghost use Rattle.whole_runs.specs.Notes.{AreNoted, CanPoke, HaveGone, noted, poke_of, steps_first, steps_on};
ghost use Rattle.whole_runs.specs.Copies.{is_within};
ghost use Rattle.whole_runs.specs.Costs.{steps_again, steps_behind, steps_left};
ghost use Rattle.whole_runs.specs.Runs.{CanHaveAll, IsCopied, KeepsCopies};

use crate::copies::{CopiedMoment, Copies};
use crate::copies_over::CopiesOver;
use crate::notes::{NotedPoke, Notes};
use crate::pokes::poke_in;
use debug_traits::{BeginsAgain, FramedMachine, PokesSurely};

/// Does so many steps again.
pub(crate) fn redo_steps<M: BeginsAgain>(machine: &mut M, steps: u64)
    ensures redone { (s : Setting) (d : Debugger) (older : List Event) → StandsAt M.stands machine.old s d older → HaveGone s steps older
        → StandsAt M.stands machine.new s d (steps_on steps older) }
    ensures copies { KeepsCopies M.can_have M.copies machine.old machine.new }
    ensures cost { M.moves machine.new ≡ M.moves machine.old + steps }
{
    for _done in 0..steps {
        machine.step();
    }
}

/// Does the rest of so many steps again, where so many of them are done.
pub(crate) fn redo_left<M: BeginsAgain>(machine: &mut M, steps: u64, done: u64)
    ensures redone { (s : Setting) (d : Debugger) (older : List Event) → done ≤ steps → StandsAt M.stands machine.old s d (steps_on done older) → HaveGone s steps older
        → StandsAt M.stands machine.new s d (steps_on steps older) }
    ensures copies { KeepsCopies M.can_have M.copies machine.old machine.new }
    ensures cost { M.moves machine.new ≡ M.moves machine.old + (steps - done) }
{
    redo_steps(machine, steps - done.min(steps));
}

/// Does a noted poke again, in its frame.
pub(crate) fn redo_poke<M: BeginsAgain + PokesSurely + FramedMachine>(
    machine: &mut M,
    note: &NotedPoke,
)
    ensures redone { (s : Setting) (d : Debugger) (older : List Event) → StandsAt M.stands machine.old s d older → CanPoke s older note.now
        → StandsAt M.stands machine.new s d (poke_of note.now ∷ older) }
    ensures copies { KeepsCopies M.can_have M.copies machine.old machine.new }
    ensures cost { M.moves machine.new ≡ M.moves machine.old }
{
    let _ = poke_in(machine, note.depth, note.shown, note.at, note.word);
}

/// Does noted pokes again, each after its steps.
pub(crate) fn redo_pokes<M: BeginsAgain + PokesSurely + FramedMachine>(
    machine: &mut M,
    notes: &[NotedPoke],
)
    ensures redone { (s : Setting) (d : Debugger) (older : List Event) → StandsAt M.stands machine.old s d older → AreNoted s older notes.now
        → StandsAt M.stands machine.new s d (noted older notes.now) }
    ensures copies { KeepsCopies M.can_have M.copies machine.old machine.new }
    ensures cost { M.moves machine.new ≡ M.moves machine.old + steps_left notes.now 0 0 }
{
    for note in notes {
        redo_steps(machine, note.steps);
        redo_poke(machine, note);
    }
}

/// Does the rest again: these pokes, each after its steps, and the steps after them, where so many of the steps before the first of them
/// are done.
pub(crate) fn redo_rest<M: BeginsAgain + PokesSurely + FramedMachine>(
    machine: &mut M,
    pokes: &[NotedPoke],
    steps: u64,
    done: u64,
)
    ensures redone { (s : Setting) (d : Debugger) (older : List Event) → done ≤ steps_first pokes.now steps → StandsAt M.stands machine.old s d (steps_on done older)
        → AreNoted s older pokes.now → HaveGone s steps (noted older pokes.now) → StandsAt M.stands machine.new s d (steps_on steps (noted older pokes.now)) }
    ensures copies { KeepsCopies M.can_have M.copies machine.old machine.new }
    ensures cost { M.moves machine.new ≡ M.moves machine.old + steps_left pokes.now steps done }
{
    match pokes.split_first() {
        None => redo_left(machine, steps, done),
        Some((first, rest)) => {
            redo_left(machine, first.steps, done);
            redo_poke(machine, first);
            redo_pokes(machine, rest);
            redo_steps(machine, steps);
        }
    }
}

/// Begins again at a copy, made after so many of the pokes and so many of the steps after these, and does the rest again.
pub(crate) fn redo_from<M: BeginsAgain + PokesSurely + FramedMachine>(
    machine: &mut M,
    notes: &Notes,
    pokes: usize,
    done: u64,
    words: &[u64],
)
    requires words { M.can_have machine.old words.now }
    requires none_kept { (M.history machine.old).past ≡ [] }
    ensures redone { (s : Setting) (d : Debugger) (older : List Event) → pokes ≤ length notes.now.pokes.items → done ≤ steps_first (drop pokes notes.now.pokes.items) notes.now.steps
        → M.copies machine.old words.now s (with_events (steps_on done (noted older (take pokes notes.now.pokes.items))) 0 0 d)
        → AreNoted s older notes.now.pokes.items → HaveGone s notes.now.steps (noted older notes.now.pokes.items)
        → StandsAt M.stands machine.new s d (steps_on notes.now.steps (noted older notes.now.pokes.items)) }
    ensures copies { KeepsCopies M.can_have M.copies machine.old machine.new }
    ensures cost { M.moves machine.new ≡ M.moves machine.old + steps_left (drop pokes notes.now.pokes.items) notes.now.steps done }
{
    machine.begin_again(words);
    let rest = &notes.pokes[pokes.min(notes.pokes.len())..];
    redo_rest(machine, rest, notes.steps, done);
}

/// Begins again at the newest of the copies, or at the start where it is of no moment of the run, and does the rest again.
pub(crate) fn redo_nearest<M: BeginsAgain + PokesSurely + FramedMachine>(
    machine: &mut M,
    notes: &Notes,
    start: &[u64],
    copies: &Copies,
)
    requires words { CanHaveAll M.can_have machine.old start.now copies.now.all.items }
    requires none_kept { (M.history machine.old).past ≡ [] }
    ensures redone { (s : Setting) (d : Debugger) (older : List Event) → All (IsCopied M.copies machine.old s d older notes.now.pokes.items notes.now.steps) copies.now.all.items
        → M.copies machine.old start.now s (with_events older 0 0 d) → AreNoted s older notes.now.pokes.items → HaveGone s notes.now.steps (noted older notes.now.pokes.items)
        → StandsAt M.stands machine.new s d (steps_on notes.now.steps (noted older notes.now.pokes.items)) }
    ensures copies { KeepsCopies M.can_have M.copies machine.old machine.new }
    ensures cost { M.moves machine.new ≡ M.moves machine.old + steps_again notes.now.pokes.items notes.now.steps copies.now.all.items }
{
    match newest(copies, notes) {
        Some(copy) => redo_from(machine, notes, copy.pokes, copy.steps, &copy.words),
        None => redo_from(machine, notes, 0, 0, start),
    }
}

/// The newest of the copies, unless it is of a moment after the last of the noted events.
fn newest<'a>(copies: &'a Copies, notes: &Notes) -> Option<&'a CopiedMoment>
    ensures one { IfSome result (λ copy. (k : ℕ) × (slice_get copies.now.all.items k ≡ Some copy.now)) }
    ensures within { IfSome result (λ copy. is_within notes.now.pokes.items notes.now.steps copy.now.pokes copy.now.steps ≡ true) }
    ensures behind { steps_behind notes.now.pokes.items notes.now.steps (option_copied result) ≡ steps_again notes.now.pokes.items notes.now.steps copies.now.all.items }
{
    let copy = copies.all.last()?;
    copy.is_within(notes).then_some(copy)
}

/// Takes the last event back, which the notes have no more: by the machine, if it can, else all others are done again from the newest copy.
pub(crate) fn take_last_back<M: BeginsAgain + PokesSurely + FramedMachine>(
    machine: &mut M,
    notes: &Notes,
    start: &[u64],
    copies: &mut Copies,
)
    requires { CanHaveAll M.can_have machine.old start.now copies.old.all.items }
    ensures words { CanHaveAll M.can_have machine.new start.now copies.new.all.items }
    ensures most { copies.new.plan.most ≡ copies.old.plan.most }
    ensures stays { KeepsCopies M.can_have M.copies machine.old machine.new }
    ensures back { (s : Setting) (d : Debugger) (older events : List Event) → StandsAt M.stands machine.old s d events
        → (drop 1 events ≡ steps_on notes.now.steps (noted older notes.now.pokes.items))
        → All (IsCopied M.copies machine.old s d older notes.now.pokes.items notes.now.steps) copies.old.all.items
        → M.copies machine.old start.now s (with_events older 0 0 d) → AreNoted s older notes.now.pokes.items → HaveGone s notes.now.steps (noted older notes.now.pokes.items)
        → StandsAt M.stands machine.new s d (steps_on notes.now.steps (noted older notes.now.pokes.items)) }
    ensures copies { (copies.new.all.items ≡ copies.old.all.items)
        ⊎ (copies.new.all.items ≡ filter (λ c. is_within notes.now.pokes.items notes.now.steps c.pokes c.steps) copies.old.all.items) }
    // It moves once, or does again what is behind the newest copy that is left.
    ensures cost { M.moves machine.new ≤ M.moves machine.old + max 1 (steps_again notes.now.pokes.items notes.now.steps copies.new.all.items) }
{
    if machine.kept() > 0 {
        let _ = machine.undo();
        return;
    }
    copies.drop_past(notes);
    redo_nearest(machine, notes, start, copies);
}

/// Takes back what the machine can take back itself.
fn take_all_back<M: BeginsAgain>(machine: &mut M)
    ensures none_kept { (M.history machine.new).past ≡ [] }
    ensures copies { KeepsCopies M.can_have M.copies machine.old machine.new }
{
    for _taken in 0..machine.kept() {
        let _ = machine.undo();
    }
}

/// Copies the moment before the last steps over the start, and comes back.
pub(crate) fn move_start<M: CopiesOver + PokesSurely + FramedMachine>(
    machine: &mut M,
    notes: &Notes,
    start: &mut [u64],
    left: u64,
)
    requires { M.can_have machine.old start.old }
    ensures words { M.can_have machine.new start.new }
    ensures moved { (s : Setting) (d : Debugger) (older : List Event) → left ≤ notes.now.steps → M.copies machine.old start.old s (with_events older 0 0 d)
        → AreNoted s older notes.now.pokes.items → HaveGone s notes.now.steps (noted older notes.now.pokes.items)
        → StandsAt M.stands machine.new s d (steps_on notes.now.steps (noted older notes.now.pokes.items))
        × M.copies machine.new start.new s (with_events (steps_on (notes.now.steps - left) (noted older notes.now.pokes.items)) 0 0 d) }
{
    take_all_back(machine);
    machine.begin_again(start);
    redo_pokes(machine, &notes.pokes);
    let first = notes.steps - left.min(notes.steps);
    redo_steps(machine, first);
    machine.copy_over(start);
    redo_left(machine, notes.steps, first);
}
