//! A machine of two functions, with an array, a constant and an index variable.
ghost use Rattle.std.specs.Prelude.{◌≡◌, ◌≤◌, ◌<◌, ◌^◌, ◌-◌, IfSome, length};

use debug_traits::{
    Fault, Moves, NamedVariable, NextLocal, PokesSurely, Position, RecordedMachine, Shown, StepEnd,
};
use gang_types::{FaultName, IntType, Mask, Place, Rate, VarId};
use std::alloc::{AllocError, Global};
use undo_log::{NoHistory, SnapshotRing, Timeline, Undone};

/// Runs lines 10 and 11 of `main`, which calls `part` on lines 3 to 5, and then lines 12 to 14. It may fault at one place.
///
/// Its words: the number of the place, four lanes of `total`, `size`, three elements of `marks`, `n` and four lanes of `i`.
#[derive(Drop)]
pub struct TwoFrames {
    words: SnapshotRing,
    faulty: Option<u64>,
    /// It finds no memory for more events than so many.
    most: usize,
    moves: Moves,
    ghost sized: { length words.words ≡ 14 },
    ghost roomy: { words.room ≡ 2 ^ 64 - 1 },
}

impl TwoFrames {
    /// A machine before line 10, whose words are 0.
    pub fn new(alloc: Global, limit: usize, faulty: Option<u64>) -> Result<Self, AllocError>
        requires low { 1 ≤ limit }
        requires high { limit ≤ 65536 }
    {
        let words = SnapshotRing::new(alloc, 14, limit)?;
        Ok(TwoFrames {
            words,
            faulty,
            most: 65_536,
            moves: Moves::none(),
        })
    }

    /// The same machine, which finds no memory for more events than so many.
    pub fn with_most(mut self, most: usize) -> Self {
        self.most = most;
        self
    }

    /// The line of a place and its depth, none past the end.
    fn place(at: u64) -> Option<(u32, usize)> {
        match at {
            0 => Some((10, 1)),
            1 => Some((11, 1)),
            2 => Some((3, 2)),
            3 => Some((4, 2)),
            4 => Some((5, 2)),
            5 => Some((12, 1)),
            6 => Some((13, 1)),
            7 => Some((14, 1)),
            _ => None,
        }
    }

    /// The word where a variable's words begin.
    fn base(id: VarId) -> usize
        ensures { result ≤ 10 }
    {
        match id {
            VarId::File(0) => 1,
            VarId::File(1) => 5,
            VarId::File(_) => 6,
            VarId::Local(0) => 9,
            VarId::Local(_) => 10,
        }
    }
}

/// A variable of the file.
fn of_file(number: usize) -> Option<NamedVariable<'static>>
    ensures { IfSome result (λ v. v.shown.count ≤ 16) }
{
    let (name, value_type, rate, count) = match number {
        0 => (b"total".as_slice(), IntType::Int32, Rate::Varying, 4),
        1 => (b"size".as_slice(), IntType::Int32, Rate::Uniform, 1),
        2 => (b"marks".as_slice(), IntType::Int8, Rate::Uniform, 3),
        _ => return None,
    };
    let shown = Shown {
        id: VarId::File(number),
        value_type,
        rate,
        is_array: number == 2,
        is_constant: number == 1,
        count,
    };
    Some(NamedVariable { name, shown })
}

/// A variable of `main`.
fn of_main(number: usize) -> Option<NamedVariable<'static>> {
    let (name, rate, count) = match number {
        0 => (b"n".as_slice(), Rate::Uniform, 1),
        1 => (b"i".as_slice(), Rate::Varying, 4),
        _ => return None,
    };
    let shown = Shown {
        id: VarId::Local(number),
        value_type: IntType::Int32,
        rate,
        is_array: false,
        is_constant: number == 1,
        count,
    };
    Some(NamedVariable { name, shown })
}

// It stands for no program, so that only its answers count.
impl RecordedMachine for TwoFrames {
    ghost use Rattle.std.specs.Prelude.{[]};

    ghost stands = { λ _ _ _. ⊥ };

    ghost history = { λ m. m.words };

    ghost moves = { λ m. m.moves.count };

    ghost may_want = { ⊥ };

    ghost same_run = { λ _ _. Unit {0} };

    ghost locals_from = { λ _ _ _ _. [] };

    ghost parameters_from = { λ _ _ _ _. [] };

    fn step(&mut self) -> StepEnd {
        self.moves.count_one();
        let at = self.words.word(0);
        if at >= 8 {
            return StepEnd::Ended;
        }
        if self.faulty == Some(at) {
            return StepEnd::Fault(Fault {
                name: FaultName::DivideByZero,
                lane: 2,
            });
        }
        self.words.mark(Undone::Step);
        self.words.set(0, at + 1);
        match at {
            2 => self.words.set(2, 5),
            3 => self.words.set(8, 7),
            _ => {}
        }
        StepEnd::Done
    }

    fn undo(&mut self) -> Result<Undone, NoHistory> {
        self.moves.count_one();
        match self.words.back() {
            Ok(back) => Ok(back.event),
            Err(none) => Err(none),
        }
    }

    fn poke(&mut self, shown: Shown, at: Option<u32>, word: u64) -> Result<(), AllocError> {
        let base = TwoFrames::base(shown.id);
        self.words.mark(Undone::Poke);
        match at {
            Some(index) => self.words.set(base + (index as usize).min(3), word),
            None if shown.count == 1 => self.words.set(base, word),
            None => {
                self.words.set(base, word);
                self.words.set(base + 1, word);
                self.words.set(base + 2, word);
                self.words.set(base + 3, word);
            }
        }
        Ok(())
    }

    fn kept(&self) -> usize {
        self.words.kept()
    }

    fn kept_steps(&self) -> usize {
        self.words.kept_steps()
    }

    fn limit(&self) -> usize {
        self.words.limit()
    }

    fn set_limit(&mut self, limit: usize) -> Result<(), AllocError> {
        if limit > self.words.limit() && limit > self.most {
            return Err(AllocError);
        }
        self.words.set_limit(limit)
    }

    fn position(&self) -> Option<Position<'_>> {
        let (line, depth) = TwoFrames::place(self.words.word(0))?;
        Some(Position {
            place: Place { line, col: 5 },
            function: if depth == 1 { b"main" } else { b"part" },
            depth,
            width: 4,
            lanes: Mask::all::<4>(),
        })
    }

    fn call(&self, _depth: usize) -> Option<Position<'_>> {
        None
    }

    fn find(&self, name: &[u8]) -> Option<Shown> {
        if let Some(number) = self.find_in_file(name) {
            return of_file(number).map(|found| found.shown);
        }
        if name == b"n".as_slice() {
            of_main(0).map(|found| found.shown)
        } else if name == b"i".as_slice() {
            of_main(1).map(|found| found.shown)
        } else {
            None
        }
    }

    fn find_in_file(&self, name: &[u8]) -> Option<usize> {
        if name == b"total".as_slice() {
            Some(0)
        } else if name == b"size".as_slice() {
            Some(1)
        } else if name == b"marks".as_slice() {
            Some(2)
        } else {
            None
        }
    }

    fn file_variable(&self, number: usize) -> Option<NamedVariable<'_>> {
        of_file(number)
    }

    fn next_local(&self, from: usize) -> Option<NextLocal<'_>> {
        let next = match from {
            0 => 1,
            1 => 2,
            _ => return None,
        };
        Some(NextLocal {
            variable: of_main(from)?,
            next,
        })
    }

    fn next_parameter(&self, _from: usize) -> Option<NextLocal<'_>> {
        None
    }

    fn word(&self, shown: Shown, index: usize) -> u64 {
        self.words.word(TwoFrames::base(shown.id) + index.min(3))
    }

    fn line_from(&self, line: u32) -> Option<u32> {
        match line {
            0..=3 => Some(3),
            4..=5 => Some(line),
            6..=10 => Some(10),
            11..=14 => Some(line),
            _ => None,
        }
    }
}

impl PokesSurely for TwoFrames {
    ghost pokes_surely = { λ wants. wants };
}
