//! A machine that goes over some places.
use debug_traits::{
    Fault, Moves, NamedVariable, NextLocal, Position, RecordedMachine, Shown, StepEnd,
};
use gang_types::{IntType, Mask, Place, Rate, VarId};
use std::alloc::AllocError;
use undo_log::{NoHistory, Undone};

/// How many places it goes over.
pub const PLACES: u32 = 5;

/// Goes over a place a line, the fourth one in a call; only lane 1 of 4 does the third. It may fault before a line, counts how often a step was tried,
/// and its only variable is `x`, which is the number of the place in all lanes. It keeps
/// one event, and goes back to no place.
#[derive(Drop)]
pub struct WalkingMachine {
    at: u32,
    tries: u32,
    fault: Option<(u32, Fault)>,
    keeps_step: bool,
    keeps_poke: bool,
    moves: Moves,
}

impl WalkingMachine {
    /// A machine at the first place, which faults before a line, if one is given.
    pub fn new(fault: Option<(u32, Fault)>) -> Self {
        WalkingMachine {
            at: 0,
            tries: 0,
            fault,
            keeps_step: false,
            keeps_poke: false,
            moves: Moves::none(),
        }
    }

    /// How often a step was tried.
    pub fn tries(&self) -> u32 {
        self.tries
    }

    fn line(&self) -> u32 {
        self.at.saturating_add(1)
    }
}

// It stands for no program, so that only its answers count.
impl RecordedMachine for WalkingMachine {
    ghost use Rattle.std.specs.Prelude.{[], ◌∷◌, if◌then◌else◌};
    ghost use Rattle.undo_log.specs.declared.timeline.Undone.TheVariants.{Poke, Step};
    ghost use Rattle.undo_log.specs.History.{moment};

    ghost stands = { λ _ _ _. ⊥ };

    ghost history = { λ m. record { words = []; past = (if m.keeps_step then (moment Step [] ∷ []) else (if m.keeps_poke then (moment Poke [] ∷ []) else [])); limit = 1; room = 0 } };

    ghost moves = { λ m. m.moves.count };

    ghost may_want = { ⊥ };

    ghost same_run = { λ _ _. Unit {0} };

    ghost locals_from = { λ _ _ _ _. [] };

    ghost parameters_from = { λ _ _ _ _. [] };

    fn step(&mut self) -> StepEnd {
        self.moves.count_one();
        self.tries = self.tries.saturating_add(1);
        if self.at >= PLACES {
            return StepEnd::Ended;
        }
        match self.fault {
            Some((line, fault)) if line == self.line() => StepEnd::Fault(fault),
            _ => {
                self.at = self.at.saturating_add(1);
                self.keeps_step = true;
                self.keeps_poke = false;
                StepEnd::Done
            }
        }
    }

    fn undo(&mut self) -> Result<Undone, NoHistory> {
        self.moves.count_one();
        if self.keeps_step {
            self.keeps_step = false;
            self.keeps_poke = false;
            return Ok(Undone::Step);
        }
        if self.keeps_poke {
            self.keeps_poke = false;
            return Ok(Undone::Poke);
        }
        Err(NoHistory)
    }

    fn poke(&mut self, _shown: Shown, _at: Option<u32>, _word: u64) -> Result<(), AllocError> {
        self.keeps_step = false;
        self.keeps_poke = true;
        Ok(())
    }

    fn kept(&self) -> usize {
        if self.keeps_step || self.keeps_poke {
            1
        } else {
            0
        }
    }

    fn kept_steps(&self) -> usize {
        if self.keeps_step { 1 } else { 0 }
    }

    fn limit(&self) -> usize {
        1
    }

    fn set_limit(&mut self, limit: usize) -> Result<(), AllocError> {
        if limit > 1 { Err(AllocError) } else { Ok(()) }
    }

    fn position(&self) -> Option<Position<'_>> {
        if self.at >= PLACES {
            return None;
        }
        Some(Position {
            place: Place {
                line: self.line(),
                col: 1,
            },
            function: b"go",
            depth: if self.at == 3 { 2 } else { 1 },
            width: 4,
            lanes: if self.at == 2 {
                Mask::only::<4>(1)
            } else {
                Mask::all::<4>()
            },
        })
    }

    fn call(&self, _depth: usize) -> Option<Position<'_>> {
        None
    }

    fn find(&self, name: &[u8]) -> Option<Shown> {
        if name != b"x".as_slice() {
            return None;
        }
        Some(Shown {
            id: VarId::File(0),
            value_type: IntType::Int32,
            rate: Rate::Varying,
            is_array: false,
            is_constant: false,
            count: 4,
        })
    }

    fn find_in_file(&self, _name: &[u8]) -> Option<usize> {
        None
    }

    fn file_variable(&self, _number: usize) -> Option<NamedVariable<'_>> {
        None
    }

    fn next_local(&self, _from: usize) -> Option<NextLocal<'_>> {
        None
    }

    fn next_parameter(&self, _from: usize) -> Option<NextLocal<'_>> {
        None
    }

    fn word(&self, _shown: Shown, _index: usize) -> u64 {
        u64::from(self.at)
    }

    fn line_from(&self, _line: u32) -> Option<u32> {
        None
    }
}
