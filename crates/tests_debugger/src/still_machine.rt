//! A machine that stands still.
use debug_traits::{
    Moves, NamedVariable, NextLocal, PokesSurely, Position, RecordedMachine, Shown, StepEnd,
};
use gang_types::{IntType, Mask, Place, Rate, VarId};
use std::alloc::AllocError;
use undo_log::{NoHistory, Undone};

/// The array of the file.
pub const ARRAY: Shown = Shown {
    id: VarId::File(0),
    value_type: IntType::Int16,
    rate: Rate::Uniform,
    is_array: true,
    is_constant: false,
    count: 3,
};

/// A local variable that is not set.
pub const CONSTANT: Shown = Shown {
    id: VarId::Local(1),
    value_type: IntType::Bool,
    rate: Rate::Varying,
    is_array: false,
    is_constant: true,
    count: 2,
};

/// Where a machine stands.
#[derive(Clone, Copy)]
pub enum Standing {
    /// In `f`, which `m` called.
    Inside,
    /// In `sum`, where the last lane of 16 is active.
    Wide,
    /// At its end, where it has no variables.
    Ended,
}

/// Stands there, whatever it is asked to do, and keeps one event at most.
#[derive(Drop)]
pub struct StillMachine {
    at: Standing,
    has_poke: bool,
    moves: Moves,
}

impl StillMachine {
    pub fn new(at: Standing) -> Self {
        StillMachine {
            at,
            has_poke: false,
            moves: Moves::none(),
        }
    }

    fn has_ended(&self) -> bool {
        match self.at {
            Standing::Ended => true,
            Standing::Inside | Standing::Wide => false,
        }
    }
}

// It stands for no program, so that only its answers count.
impl RecordedMachine for StillMachine {
    ghost use Rattle.std.specs.Prelude.{[], ◌∷◌, if◌then◌else◌};
    ghost use Rattle.undo_log.specs.declared.timeline.Undone.TheVariants.{Poke};
    ghost use Rattle.undo_log.specs.History.{moment};

    ghost stands = { λ _ _ _. ⊥ };

    ghost history = { λ m. record { words = []; past = (if m.has_poke then (moment Poke [] ∷ []) else []); limit = 1; room = 0 } };

    ghost moves = { λ m. m.moves.count };

    ghost may_want = { ⊥ };

    ghost same_run = { λ _ _. Unit {0} };

    ghost locals_from = { λ _ _ _ _. [] };

    ghost parameters_from = { λ _ _ _ _. [] };

    fn step(&mut self) -> StepEnd {
        self.moves.count_one();
        StepEnd::Ended
    }

    fn undo(&mut self) -> Result<Undone, NoHistory> {
        self.moves.count_one();
        if !self.has_poke {
            return Err(NoHistory);
        }
        self.has_poke = false;
        Ok(Undone::Poke)
    }

    fn poke(&mut self, _shown: Shown, _at: Option<u32>, _word: u64) -> Result<(), AllocError> {
        self.has_poke = true;
        Ok(())
    }

    fn kept(&self) -> usize {
        if self.has_poke { 1 } else { 0 }
    }

    fn kept_steps(&self) -> usize {
        0
    }

    fn limit(&self) -> usize {
        1
    }

    fn set_limit(&mut self, limit: usize) -> Result<(), AllocError> {
        if limit > 1 { Err(AllocError) } else { Ok(()) }
    }

    fn position(&self) -> Option<Position<'_>> {
        match self.at {
            Standing::Inside => Some(Position {
                place: Place { line: 2, col: 5 },
                function: b"f",
                depth: 2,
                width: 4,
                lanes: Mask::only::<4>(1).with::<4>(3),
            }),
            Standing::Wide => Some(Position {
                place: Place { line: 12, col: 1 },
                function: b"sum",
                depth: 3,
                width: 16,
                lanes: Mask::only::<16>(15),
            }),
            Standing::Ended => None,
        }
    }

    fn call(&self, depth: usize) -> Option<Position<'_>> {
        if self.has_ended() || depth != 1 {
            return None;
        }
        Some(Position {
            place: Place { line: 9, col: 3 },
            function: b"m",
            depth: 1,
            width: 4,
            lanes: Mask::only::<4>(0),
        })
    }

    fn find(&self, _name: &[u8]) -> Option<Shown> {
        None
    }

    fn find_in_file(&self, _name: &[u8]) -> Option<usize> {
        None
    }

    fn file_variable(&self, number: usize) -> Option<NamedVariable<'_>> {
        match number {
            0 => Some(NamedVariable {
                name: b"a",
                shown: ARRAY,
            }),
            _ => None,
        }
    }

    fn next_local(&self, from: usize) -> Option<NextLocal<'_>> {
        if from > 0 || self.has_ended() {
            return None;
        }
        Some(NextLocal {
            variable: NamedVariable {
                name: b"on",
                shown: CONSTANT,
            },
            next: 1,
        })
    }

    fn next_parameter(&self, _from: usize) -> Option<NextLocal<'_>> {
        None
    }

    fn word(&self, shown: Shown, index: usize) -> u64 {
        if shown.id != ARRAY.id {
            return if index == 0 { 0 } else { 1 };
        }
        [7, u64::MAX, 0].get(index).copied().unwrap_or(0)
    }

    fn line_from(&self, _line: u32) -> Option<u32> {
        None
    }
}

impl PokesSurely for StillMachine {
    ghost pokes_surely = { λ wants. wants };
}
