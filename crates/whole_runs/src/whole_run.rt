//! A run that can be taken back to its start.
ghost use Rattle.std.specs.Prelude.{◌≡◌, ℕ, List, [], ◌^◌, ◌<◌, ◌≤◌, false, suc, length, IfOk};
ghost use Rattle.gang_model.specs.Types.Tree.{Variable};
ghost use Rattle.gang_model.specs.Debugger.Debugger.{Debugger, Setting};
ghost use Rattle.debug_traits.specs.Beginnings.{with_events};
ghost use Rattle.debug_traits.specs.Machines.{IsPart, PokesWords, Steps, StepsWords};
ghost use Rattle.whole_runs.specs.Copies.{most_copies};
ghost use Rattle.whole_runs.specs.Histories.{history_of};
ghost use Rattle.whole_runs.specs.Pokes.{IsShownIn, PokesInOrNot};
ghost use Rattle.whole_runs.specs.Runs.{AsManyCopies, StandsWhole};

use crate::copies::{CopiedMoment, Copies, CopyPlan};
use crate::copies_over::CopiesOver;
use crate::notes::Notes;
use crate::pokes::poke_in;
use crate::redoing::move_start;
use debug_traits::{BeginsAgain, FramedMachine, Moves, PokesSurely, Shown, StepEnd};
use std::alloc::{AllocError, Global};
use std::marker::Model;

/// How many events of a run can be taken back: more than any run has. A run with more would lose its oldest ones.
pub const WHOLE_RUN: usize = 1 << 62;

/// A machine, what happened in its run, and copies of its start and of other moments.
#[derive(Drop)]
pub struct WholeRun<M: BeginsAgain> {
    pub(crate) alloc: Global,
    pub(crate) inner: M,
    pub(crate) notes: Notes,
    pub(crate) start: Vec<u64>,
    pub(crate) copies: Copies,
    pub(crate) is_stale: bool,
    pub(crate) moves: Moves,
}

impl<M: BeginsAgain> Model for WholeRun<M> {
    ghost use Rattle.whole_runs.specs.NotesViews.{noted_of};
    ghost use Rattle.whole_runs.specs.Runs.{CanHaveAll, Whole};

    ghost Value = { Whole M };

    ghost view = { λ run. record { inner = run.inner; notes = noted_of run.notes; start = run.start.items; copies = run.copies.all.items; most = run.copies.plan.most; is_stale = run.is_stale; moves = run.moves.count } };

    ghost invariant = { λ run. CanHaveAll M.can_have run.inner run.start.items run.copies.all.items };
}

impl<M: BeginsAgain + Drop> WholeRun<M> {
    /// Of a machine at the start of its run. It stands for the debugger of which all events can be taken back.
    ///
    /// # Errors
    ///
    /// Out of memory for the copy of the start.
    pub fn begin(alloc: Global, inner: M) -> Result<Self, AllocError>
        ensures stands { IfOk result (λ run. (s : Setting) (d : Debugger) → M.stands inner s d → d.events ≡ [] → StandsWhole M.stands M.copies run s (with_events [] 0 (2 ^ 62) d)) }
        ensures most { IfOk result (λ run. run.most ≡ most_copies (length run.start)) }
    {
        let start = inner.copied(alloc)?;
        let plan = CopyPlan::of_words(start.len());
        Ok(Self::of_start(alloc, inner, start, plan))
    }

    /// The same with as many other copies, and as far apart at first, as the plan says.
    ///
    /// # Errors
    ///
    /// Out of memory for the copy of the start.
    pub fn begin_by(alloc: Global, inner: M, plan: CopyPlan) -> Result<Self, AllocError>
        ensures stands { IfOk result (λ run. (s : Setting) (d : Debugger) → M.stands inner s d → d.events ≡ [] → StandsWhole M.stands M.copies run s (with_events [] 0 (2 ^ 62) d)) }
        ensures most { IfOk result (λ run. run.most ≡ plan.most) }
    {
        let start = inner.copied(alloc)?;
        Ok(Self::of_start(alloc, inner, start, plan))
    }

    /// With a copy of the start.
    fn of_start(alloc: Global, inner: M, start: Vec<u64>, plan: CopyPlan) -> Self
        requires { M.can_have inner start.items }
        ensures stands { (s : Setting) (d : Debugger) → M.stands inner s d → d.events ≡ [] → M.copies inner start.items s (with_events [] 0 0 d)
            → StandsWhole M.stands M.copies result s (with_events [] 0 (2 ^ 62) d) }
        ensures most { result.most ≡ plan.most }
        ensures start { result.start ≡ start.items }
    {
        WholeRun {
            alloc,
            inner,
            notes: Notes::none(alloc, WHOLE_RUN),
            start,
            copies: Copies::none(alloc, plan),
            is_stale: false,
            moves: Moves::none(),
        }
    }
}

impl<M: BeginsAgain> WholeRun<M> {
    /// Copies of a moment after the last event go.
    #[cold]
    fn drop_past(&mut self)
        ensures whole { (s : Setting) (d : Debugger) → StandsWhole M.stands M.copies self.old s d → StandsWhole M.stands M.copies self.new s d }
        ensures fresh { self.new.is_stale ≡ false }
        ensures notes { self.new.notes ≡ self.old.notes }
        ensures most { AsManyCopies self.old self.new }
        ensures moves { self.new.moves ≡ self.old.moves }
    {
        self.copies.drop_past(&self.notes);
        self.is_stale = false;
    }

    /// Counts an event: a copy is made, if one is due and there is memory for it.
    pub(crate) fn count_event(&mut self)
        requires { self.old.is_stale ≡ false }
        ensures whole { (s : Setting) (d : Debugger) → StandsWhole M.stands M.copies self.old s d → StandsWhole M.stands M.copies self.new s d }
        ensures notes { self.new.notes ≡ self.old.notes }
        ensures most { AsManyCopies self.old self.new }
        ensures moves { self.new.moves ≡ self.old.moves }
    {
        if self.copies.is_due() {
            self.add_copy();
        }
    }

    /// One copy more, if there is memory for it.
    #[cold]
    fn add_copy(&mut self)
        requires { self.old.is_stale ≡ false }
        ensures whole { (s : Setting) (d : Debugger) → StandsWhole M.stands M.copies self.old s d → StandsWhole M.stands M.copies self.new s d }
        ensures notes { self.new.notes ≡ self.old.notes }
        ensures most { AsManyCopies self.old self.new }
        ensures moves { self.new.moves ≡ self.old.moves }
    {
        if let Ok(words) = self.inner.copied(self.alloc) {
            self.copies.keep(CopiedMoment {
                pokes: self.notes.pokes.len(),
                steps: self.notes.steps,
                words,
            });
        }
    }

    /// Does the next step and notes it.
    pub(crate) fn go_on(&mut self) -> StepEnd
        requires fresh { self.old.is_stale ≡ false }
        requires room { suc self.old.notes.steps < 2 ^ 64 }
        ensures step { (s : Setting) (d : Debugger) → StandsWhole M.stands M.copies self.old s d → Steps (StandsWhole M.stands M.copies) s d result self.new }
        ensures words { StepsWords (history_of self.old) result (history_of self.new) }
        ensures fresh { self.new.is_stale ≡ false }
        ensures most { AsManyCopies self.old self.new }
        ensures moves { self.new.moves ≡ suc self.old.moves }
    {
        self.moves.count_one();
        let end = self.inner.step();
        if let StepEnd::Done = end {
            self.notes.note_step();
        }
        end
    }
}

impl<M: CopiesOver + PokesSurely + FramedMachine> WholeRun<M> {
    /// No copy is of a moment after the last event, and another step can be counted.
    // Each step calls it, and nearly always there is nothing to do.
    #[inline(always)]
    pub(crate) fn make_ready(&mut self)
        ensures whole { (s : Setting) (d : Debugger) → StandsWhole M.stands M.copies self.old s d → StandsWhole M.stands M.copies self.new s d }
        ensures fresh { self.new.is_stale ≡ false }
        ensures room { suc self.new.notes.steps < 2 ^ 64 }
        ensures history { history_of self.new ≡ history_of self.old }
        ensures most { AsManyCopies self.old self.new }
        ensures moves { self.new.moves ≡ self.old.moves }
    {
        self.refresh();
        self.count_anew();
    }

    /// No copy is of a moment after the last event.
    fn refresh(&mut self)
        ensures whole { (s : Setting) (d : Debugger) → StandsWhole M.stands M.copies self.old s d → StandsWhole M.stands M.copies self.new s d }
        ensures fresh { self.new.is_stale ≡ false }
        ensures notes { self.new.notes ≡ self.old.notes }
        ensures most { AsManyCopies self.old self.new }
        ensures moves { self.new.moves ≡ self.old.moves }
    {
        if self.is_stale {
            self.drop_past();
        }
    }

    /// Another step can be counted.
    fn count_anew(&mut self)
        ensures whole { (s : Setting) (d : Debugger) → StandsWhole M.stands M.copies self.old s d → StandsWhole M.stands M.copies self.new s d }
        ensures stale { self.new.is_stale ≡ self.old.is_stale }
        ensures room { suc self.new.notes.steps < 2 ^ 64 }
        ensures history { history_of self.new ≡ history_of self.old }
        ensures most { AsManyCopies self.old self.new }
        ensures moves { self.new.moves ≡ self.old.moves }
    {
        if self.notes.steps == u64::MAX {
            self.forget_older();
        }
    }

    /// Forgets all events but the last steps, as many as can be taken back at most. The start is then the moment before these.
    #[cold]
    fn forget_older(&mut self)
        requires { self.old.notes.limit ≤ self.old.notes.steps }
        ensures whole { (s : Setting) (d : Debugger) → StandsWhole M.stands M.copies self.old s d → StandsWhole M.stands M.copies self.new s d }
        ensures stale { self.new.is_stale ≡ self.old.is_stale }
        ensures room { suc self.new.notes.steps < 2 ^ 64 }
        ensures history { history_of self.new ≡ history_of self.old }
        ensures most { AsManyCopies self.old self.new }
        ensures moves { self.new.moves ≡ self.old.moves }
    {
        let left = self.notes.limit as u64;
        move_start(&mut self.inner, &self.notes, &mut self.start, left);
        self.notes.forget_older();
        self.copies.clear();
    }

    /// Sets a value in the frame at a depth, or in the top one where no depth is given, and notes it.
    ///
    /// # Errors
    ///
    /// Out of memory for the note, and then nothing changes.
    pub(crate) fn set_noted(
        &mut self,
        depth: Option<usize>,
        shown: Shown,
        at: Option<u32>,
        word: u64,
    ) -> Result<(), AllocError>
        requires { self.old.is_stale ≡ false }
        ensures poke { (s : Setting) (d : Debugger) (v : Variable) → StandsWhole M.stands M.copies self.old s d → IsShownIn depth s d v shown → IsPart at shown
            → PokesInOrNot depth (StandsWhole M.stands M.copies) s d v shown at word result self.new }
        ensures words { PokesWords (history_of self.old) result (history_of self.new) }
        ensures most { AsManyCopies self.old self.new }
        ensures moves { self.new.moves ≡ self.old.moves }
    {
        self.notes.note_poke(depth, shown, at, word)?;
        let _ = poke_in(&mut self.inner, depth, shown, at, word);
        Ok(())
    }
}
