//! What moves the words of a machine.
ghost use Rattle.std.specs.Prelude.{◌≡◌, suc, OnErr};
ghost use Rattle.undo_log.specs.History.{TakenBack};
ghost use Rattle.mask_states.specs.Masked.{Masked};
ghost use Rattle.frame_steps.specs.Standing.{AreSound, IsShown, Steps};

use debug_traits::{Moves, StepEnd};
use expression_runs::Stacks;
use frame_steps::CompiledProgram;
use machine_steps::step;
use machine_words::MachineWords;
use undo_log::{Back, NoHistory, Timeline};

/// Moves words a step forward, and an event back, and counts its moves. A step needs its stacks, which no other code reaches, so
/// each step that is run with them is counted.
#[derive(Drop)]
pub(crate) struct Mover<const W: usize> {
    stacks: Box<Stacks<W>>,
    moves: Moves,
}

impl<const W: usize> Mover<W> {
    /// One that has not moved, with the stacks that a step needs.
    pub(crate) fn new(stacks: Box<Stacks<W>>) -> Self
        ensures { result.moves.count ≡ 0 }
    {
        Mover {
            stacks,
            moves: Moves::none(),
        }
    }

    /// Does the next step of the words and records it. A fault and the end change nothing in them.
    pub(crate) fn step<T: Timeline + Drop>(
        &mut self,
        compiled: &CompiledProgram,
        words: &mut MachineWords<T>,
    ) -> StepEnd
        requires sound { AreSound T.history W compiled.now words.old }
        ensures steps { (masked : Masked) → IsShown T.history W compiled.now words.old masked → Steps T.history W compiled.now masked words.old result words.new }
        ensures sound { AreSound T.history W compiled.now words.new }
        ensures moves { self.new.moves.count ≡ suc self.old.moves.count }
    {
        self.moves.count_one();
        step::<W, T>(compiled, words, &mut self.stacks)
    }

    /// Takes the newest kept event of the words back.
    pub(crate) fn back<T: Timeline + Drop>(
        &mut self,
        words: &mut MachineWords<T>,
    ) -> Result<Back, NoHistory>
        ensures answer { TakenBack (T.history words.old.store.timeline) result (T.history words.new.store.timeline) }
        ensures left { OnErr result (T.left words.new.store.timeline ≡ T.left words.old.store.timeline) }
        ensures layout { words.new.layout ≡ words.old.layout }
        ensures moves { self.new.moves.count ≡ suc self.old.moves.count }
    {
        self.moves.count_one();
        words.store.timeline.back()
    }
}
