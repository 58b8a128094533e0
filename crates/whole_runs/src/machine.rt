//! What a debugger asks of a machine, of a run that can be taken back to its start.
ghost use Rattle.std.specs.Prelude.{◌≡◌, ◌<◌, ◌≤◌, ◌+◌, true, is_err, length, max, slice_get, slice_index, suc, IfSome};
ghost use Rattle.undo_log.specs.History.{steps_in};
ghost use Rattle.gang_types.specs.Masks.{IsGangWidth};
ghost use Rattle.gang_model.specs.Types.Tree.{Variable};
ghost use Rattle.gang_model.specs.Debugger.Positions.{line_now};
ghost use Rattle.gang_model.specs.Debugger.Debugger.{Debugger, Setting, depth, kept_steps, least_from, now, shown_words, step_lines};
ghost use Rattle.gang_model.specs.Texts.Text.{where_text};
ghost use Rattle.debug_traits.specs.Machines.{Finds, FindsInFile, IsPart, IsShown, Limits, LimitsWords, PokesOrNot, PokesWords, ShowsFileAsBefore, ShowsNamed, ShowsNext, Steps, StepsWords, Undoes, UndoesWords, call_text, depth_of, file_variables, line_of_position, listed, listed_parameters, position_line, position_text};
ghost use Rattle.whole_runs.specs.Costs.{steps_again};
ghost use Rattle.whole_runs.specs.Runs.{AsManyCopies, StandsWhole, inner_debugger};
ghost use Rattle.whole_runs.specs.Histories.{history_of};

use crate::copies_over::CopiesOver;
use crate::redoing::take_last_back;
use crate::whole_run::WholeRun;
use debug_traits::{
    FramedMachine, NamedVariable, NextLocal, PokesSurely, Position, RecordedMachine, Shown, StepEnd,
};
use std::alloc::AllocError;
use undo_log::{NoHistory, Undone};

impl<M: CopiesOver + PokesSurely + FramedMachine> RecordedMachine for WholeRun<M> {
    ghost stands = { StandsWhole M.stands M.copies };

    ghost history = { history_of };

    ghost moves = { λ run. run.moves };

    ghost may_want = { Unit {0} };

    ghost same_run = { AsManyCopies };

    ghost locals_from = { λ run s d. M.locals_from run.inner s (inner_debugger M.history run d) };

    ghost parameters_from = { λ run s d. M.parameters_from run.inner s (inner_debugger M.history run d) };

    fn step(&mut self) -> StepEnd {
        self.make_ready();
        let end = self.go_on();
        if let StepEnd::Done = end {
            self.count_event();
        }
        end
    }

    fn undo(&mut self) -> Result<Undone, NoHistory>
        ensures undo { (s : Setting) (d : Debugger) → StandsWhole M.stands M.copies self.old s d → Undoes (StandsWhole M.stands M.copies) s d result self.new }
        ensures run { AsManyCopies self.old self.new }
        ensures words { UndoesWords (history_of self.old) result (history_of self.new) }
        ensures moves { self.new.moves ≡ suc self.old.moves }
        // The machine itself moves once for it, or does again the steps behind the newest copy that is left, or behind the start.
        ensures cost { M.moves self.new.inner ≤ M.moves self.old.inner + max 1 (steps_again self.new.notes.pokes self.new.notes.steps self.new.copies) }
    {
        self.moves.count_one();
        let event = self.notes.forget_last()?;
        self.is_stale = true;
        take_last_back(&mut self.inner, &self.notes, &self.start, &mut self.copies);
        Ok(event)
    }

    fn poke(&mut self, shown: Shown, at: Option<u32>, word: u64) -> Result<(), AllocError> {
        self.make_ready();
        self.set_noted(None, shown, at, word)
    }

    fn may_have_set_file(&self) -> bool {
        self.inner.may_have_set_file()
    }

    fn kept(&self) -> usize {
        self.notes.kept
    }

    fn kept_steps(&self) -> usize {
        self.notes.kept_steps()
    }

    fn limit(&self) -> usize {
        self.notes.limit
    }

    fn set_limit(&mut self, limit: usize) -> Result<(), AllocError> {
        self.notes.set_limit(limit);
        Ok(())
    }

    fn position(&self) -> Option<Position<'_>> {
        self.inner.position()
    }

    fn call(&self, depth: usize) -> Option<Position<'_>> {
        self.inner.call(depth)
    }

    fn find(&self, name: &[u8]) -> Option<Shown> {
        self.inner.find(name)
    }

    fn find_in_file(&self, name: &[u8]) -> Option<usize> {
        self.inner.find_in_file(name)
    }

    fn file_variable(&self, number: usize) -> Option<NamedVariable<'_>> {
        self.inner.file_variable(number)
    }

    fn next_local(&self, from: usize) -> Option<NextLocal<'_>> {
        let _kept = self.inner.kept();
        let _limit = self.inner.limit();
        self.inner.next_local(from)
    }

    fn next_parameter(&self, from: usize) -> Option<NextLocal<'_>> {
        let _kept = self.inner.kept();
        let _limit = self.inner.limit();
        self.inner.next_parameter(from)
    }

    fn word(&self, shown: Shown, index: usize) -> u64 {
        self.inner.word(shown, index)
    }

    fn line_from(&self, line: u32) -> Option<u32> {
        self.inner.line_from(line)
    }
}
