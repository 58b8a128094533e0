//! The machine: a compiled program, and words that lie in a timeline.
ghost use Rattle.std.specs.Prelude.{◌≡◌, ℕ, ◌^◌, ◌<◌, ◌≤◌, false, true, is_err, length, slice_get, slice_index, IfSome};
ghost use Rattle.gang_types.specs.Masks.{IsGangWidth};
ghost use Rattle.undo_log.specs.History.{steps_in};
ghost use Rattle.gang_model.specs.Types.Tree.{Variable};
ghost use Rattle.gang_model.specs.Debugger.Debugger.{Debugger, Setting, depth, kept_steps, least_from, now, shown_words, step_lines};
ghost use Rattle.gang_model.specs.Debugger.Positions.{line_now};
ghost use Rattle.gang_model.specs.Texts.Text.{where_text};
ghost use Rattle.debug_traits.specs.Machines.{Finds, FindsInFile, IsPart, IsShown, Limits, LimitsWords, PokesOrNot, PokesWords, ShowsFileAsBefore, ShowsNamed, ShowsNext, Steps, StepsWords, Undoes, UndoesWords, call_text, depth_of, file_variables, line_of_position, listed, listed_parameters, position_line, position_text};
ghost use Rattle.machine_words.specs.Ranges.{IsPlanned};
ghost use Rattle.gang_machine.specs.FileWords.{LieBefore};
ghost use Rattle.gang_machine.specs.Nexts.{listed_left};
ghost use Rattle.gang_machine.specs.Again.{SameRun};
ghost use Rattle.gang_machine.specs.Standings.{Stands, history_of, moves_of};

use crate::mover::Mover;
use debug_traits::{
    NamedVariable, NextLocal, PokesSurely, Position, RecordedMachine, Shown, StepEnd,
};
use frame_steps::CompiledProgram;
use gang_memory::Layout;
use machine_names::{ListedKind, file_number, least_from, named};
use machine_shown::{call, poke, position};
use machine_words::MachineWords;
use std::alloc::AllocError;
use std::marker::Model;
use undo_log::{NoHistory, Timeline, Undone};

/// A program that runs: its code, and its words in a timeline.
#[derive(Drop)]
pub struct Machine<const W: usize, T: Timeline + Drop> {
    pub(crate) entry: usize,
    pub(crate) compiled: CompiledProgram,
    pub(crate) lines: Vec<u32>,
    pub(crate) words: MachineWords<T>,
    pub(crate) mover: Mover<W>,
}

impl<const W: usize, T: Timeline + Drop> Model for Machine<W, T> {
    ghost use Rattle.gang_machine.specs.Machines.{IsMachine};
    ghost use Rattle.gang_machine.specs.Standings.{Counted, counted, view_of};
    ghost use Rattle.std.specs.Coded.{codes};
    ghost use Rattle.typed_tree.specs.contracts.expressions.Expr as expression;
    ghost use Rattle.typed_tree.specs.contracts.statements.Stmt as statement;

    ghost Value = { Counted };

    ghost coded = { Prim.hlevel (codes, statement.the_row.coded, expression.the_row.coded) };

    ghost view = { λ m. counted (view_of W m.entry m.compiled.program m.lines.items m.words.layout (T.history m.words.store.timeline)) m.mover.moves.count };

    ghost invariant = { λ m. IsMachine T.history W m.compiled m.words };
}

impl<const W: usize, T: Timeline + Drop> RecordedMachine for Machine<W, T> {
    ghost use Rattle.machine_names.specs.declared.listing.ListedKind.TheVariants.{Locals, Parameters};

    ghost stands = { Stands };

    ghost history = { history_of };

    ghost moves = { moves_of };

    ghost may_want = { ⊥ };

    ghost same_run = { SameRun };

    ghost locals_from = { λ m. listed_left Locals m.seen };

    ghost parameters_from = { λ m. listed_left Parameters m.seen };

    fn step(&mut self) -> StepEnd {
        self.mover.step::<T>(&self.compiled, &mut self.words)
    }

    fn undo(&mut self) -> Result<Undone, NoHistory> {
        let back = self.mover.back::<T>(&mut self.words)?;
        Ok(back.event)
    }

    fn poke(&mut self, shown: Shown, at: Option<u32>, word: u64) -> Result<(), AllocError> {
        poke::<W, T>(&self.compiled, &mut self.words, shown.id, at, word);
        Ok(())
    }

    fn may_have_set_file(&self) -> bool {
        self.words
            .store
            .timeline
            .may_have_set(0, end_of_file::<W>(&self.words.layout))
    }

    fn kept(&self) -> usize {
        self.words.store.timeline.kept()
    }

    fn kept_steps(&self) -> usize {
        self.words.store.timeline.kept_steps()
    }

    fn limit(&self) -> usize {
        self.words.store.timeline.limit()
    }

    fn set_limit(&mut self, limit: usize) -> Result<(), AllocError> {
        limited(&mut self.words, limit)
    }

    #[inline(always)]
    fn position(&self) -> Option<Position<'_>> {
        position::<W, T>(&self.compiled, &self.words)
    }

    fn call(&self, depth: usize) -> Option<Position<'_>> {
        call::<W, T>(&self.compiled, &self.words, depth)
    }

    fn find(&self, name: &[u8]) -> Option<Shown> {
        self.named_in(self.top(), name)
    }

    fn find_in_file(&self, name: &[u8]) -> Option<usize> {
        file_number(&self.compiled.program.globals, name)
    }

    fn file_variable(&self, number: usize) -> Option<NamedVariable<'_>> {
        let global = self.compiled.program.globals.get(number)?;
        Some(self.counted_by_name(self.top(), named::<W>(&global.variable)))
    }

    fn next_local(&self, from: usize) -> Option<NextLocal<'_>> {
        self.next_in(ListedKind::Locals, self.top(), from)
    }

    fn next_parameter(&self, from: usize) -> Option<NextLocal<'_>> {
        self.next_in(ListedKind::Parameters, self.top(), from)
    }

    fn word(&self, shown: Shown, index: usize) -> u64 {
        self.word_in(self.top(), shown, index)
    }

    fn line_from(&self, line: u32) -> Option<u32> {
        least_from(&self.lines, line)
    }
}

impl<const W: usize, T: Timeline + Drop> PokesSurely for Machine<W, T> {
    ghost pokes_surely = { λ wants. wants };
}

/// The first word behind the variables of the file.
fn end_of_file<const W: usize>(layout: &Layout) -> usize
    requires planned { IsPlanned W layout.now }
    requires small { layout.now.words < 2 ^ 64 }
    ensures { LieBefore result layout.now.file.items }
{
    match layout.file.last() {
        Some(part) => part.first + part.len,
        None => 0,
    }
}

/// Changes how many events of the words are kept at most.
fn limited<T: Timeline + Drop>(words: &mut MachineWords<T>, limit: usize) -> Result<(), AllocError>
    requires { (1 ≤ limit) × (limit ≤ 65536) }
    ensures limited { LimitsWords (T.history words.old.store.timeline) limit result (T.history words.new.store.timeline) }
    ensures layout { words.new.layout ≡ words.old.layout }
{
    words.store.timeline.set_limit(limit)
}
