//! The frames of a run that can be taken back to its start.
ghost use Rattle.std.specs.Prelude.{◌≡◌, ◌<◌, true, is_err, slice_index, IfSome};
ghost use Rattle.gang_model.specs.Types.Tree.{Variable};
ghost use Rattle.gang_model.specs.Debugger.Debugger.{Debugger, Setting, now, shown_words};
ghost use Rattle.debug_traits.specs.Machines.{IsPart, PokesWords};
ghost use Rattle.debug_traits.specs.Frames.{FindsAt, IsShownAt, PokesAtOrNot, ShowsNextAt, listed_at, listed_parameters_at, state_at};
ghost use Rattle.whole_runs.specs.Runs.{inner_debugger};

use crate::copies_over::CopiesOver;
use crate::whole_run::WholeRun;
use debug_traits::{FramedMachine, NextLocal, PokesSurely, Shown};
use std::alloc::AllocError;

impl<M: CopiesOver + PokesSurely + FramedMachine> FramedMachine for WholeRun<M> {
    ghost locals_at = { λ run s d deep. M.locals_at run.inner s (inner_debugger M.history run d) deep };

    ghost parameters_at = { λ run s d deep. M.parameters_at run.inner s (inner_debugger M.history run d) deep };

    fn find_at(&self, depth: usize, name: &[u8]) -> Option<Shown> {
        self.inner.find_at(depth, name)
    }

    fn next_local_at(&self, depth: usize, from: usize) -> Option<NextLocal<'_>> {
        let _kept = self.inner.kept();
        let _limit = self.inner.limit();
        self.inner.next_local_at(depth, from)
    }

    fn next_parameter_at(&self, depth: usize, from: usize) -> Option<NextLocal<'_>> {
        let _kept = self.inner.kept();
        let _limit = self.inner.limit();
        self.inner.next_parameter_at(depth, from)
    }

    fn word_at(&self, depth: usize, shown: Shown, index: usize) -> u64 {
        self.inner.word_at(depth, shown, index)
    }

    fn poke_at(
        &mut self,
        depth: usize,
        shown: Shown,
        at: Option<u32>,
        word: u64,
    ) -> Result<(), AllocError> {
        self.make_ready();
        self.set_noted(Some(depth), shown, at, word)
    }
}
