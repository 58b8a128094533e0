//! An event that is taken back at once: all words are again those before it.
ghost use Rattle.std.specs.Prelude.{◌≡◌, ◌+◌, Ok};
ghost use Rattle.undo_log.specs.declared.timeline.Undone.TheVariants.{Poke};
ghost use Rattle.debug_traits.specs.Machines.{AreBack, HasStepBack, tried_moves, undone_after};

use crate::machine::{RecordedMachine, Shown, StepEnd};
use crate::sure_pokes::PokesSurely;
use undo_log::{NoHistory, Undone};

/// Does the next step, and takes it back at once if it was done: what it came to, and the event that was taken back.
///
/// It was that step, and all words are those before it. After a fault, and at the program's end, nothing is taken back, and
/// nothing changes.
pub fn step_and_undo<M: RecordedMachine>(machine: &mut M) -> (StepEnd, Option<Undone>)
    ensures event { result.1 ≡ undone_after result.0 }
    ensures words { HasStepBack result.0 (M.history machine.old) (M.history machine.new) }
    ensures moves { M.moves machine.new ≡ M.moves machine.old + tried_moves result.0 }
{
    let limit = machine.limit();
    prove!(1 <= limit);
    match machine.step() {
        StepEnd::Done => (StepEnd::Done, machine.undo().ok()),
        end => (end, None),
    }
}

/// Sets a value, and takes that back at once: the event that was taken back, and all words are those before it.
pub fn poke_and_undo<M: PokesSurely>(
    machine: &mut M,
    shown: Shown,
    at: Option<u32>,
    word: u64,
) -> Result<Undone, NoHistory>
    ensures event { result ≡ Ok Poke }
    ensures words { AreBack (M.history machine.old) (M.history machine.new) }
    ensures moves { M.moves machine.new ≡ M.moves machine.old + 1 }
{
    let limit = machine.limit();
    prove!(1 <= limit);
    match machine.poke(shown, at, word) {
        Ok(()) => machine.undo(),
        Err(_) => Err(NoHistory),
    }
}
