//! What happened in a run: its steps as counts, with the pokes between them.
ghost use Rattle.std.specs.Prelude.{◌≡◌, filter, length, take, min, ℕ, ◌<◌, ◌≤◌, ◌^◌, ◌∷◌, [], ◌++◌, suc, OnOk, OnErr};
ghost use Rattle.gang_model.specs.Debugger.Debugger.{is_step};
ghost use Rattle.whole_runs.specs.Notes.{Forgets, events_of};

use debug_traits::Shown;
use std::alloc::{AllocError, Global};
use undo_log::{NoHistory, Undone};

/// A value that was set, in the frame at a depth or in the top one where no depth is given, and how many steps were made since the one
/// that was set before it, or since the start.
#[derive(Clone, Copy, Debug, PartialEq, Eq)]
pub struct NotedPoke {
    pub steps: u64,
    pub depth: Option<usize>,
    pub shown: Shown,
    pub at: Option<u32>,
    pub word: u64,
}

/// The events of a run: the pokes, the oldest first, and the steps since the last one; and how many of them can be taken back, at most
/// the limit.
#[derive(Debug, Drop)]
pub struct Notes {
    pub pokes: Vec<NotedPoke>,
    pub steps: u64,
    pub kept: usize,
    pub limit: usize,
    pub ghost some: { 1 ≤ limit },
    pub ghost large: { limit ≤ 2 ^ 62 },
    pub ghost most: { kept ≤ limit },
    pub ghost noted: { kept ≤ length (events_of pokes.items steps) },
}

impl Notes {
    /// Of a run that has not begun.
    pub fn none(alloc: Global, limit: usize) -> Self
        requires { (1 ≤ limit) × (limit ≤ 2 ^ 62) }
        ensures pokes { result.pokes.items ≡ [] }
        ensures steps { result.steps ≡ 0 }
        ensures kept { result.kept ≡ 0 }
        ensures limit { result.limit ≡ limit }
    {
        Notes {
            pokes: Vec::new(alloc),
            steps: 0,
            kept: 0,
            limit,
        }
    }

    /// How many of the events that can be taken back are steps.
    pub fn kept_steps(&self) -> usize
        ensures { result ≡ length (filter is_step (take self.now.kept (events_of self.now.pokes.items self.now.steps))) }
    {
        let mut left = self.kept as u64;
        let mut steps = self.steps;
        for passed in 0..self.pokes.len() {
            if left <= steps {
                return self.kept - passed;
            }
            left -= steps + 1;
            steps = self.pokes[self.pokes.len() - 1 - passed].steps;
        }
        self.kept - self.pokes.len()
    }

    /// One event more can be taken back, up to the limit.
    fn keep_one(&mut self)
        requires { suc self.old.kept ≤ length (events_of self.old.pokes.items self.old.steps) }
        ensures pokes { self.new.pokes ≡ self.old.pokes }
        ensures steps { self.new.steps ≡ self.old.steps }
        ensures kept { self.new.kept ≡ min (suc self.old.kept) self.old.limit }
        ensures limit { self.new.limit ≡ self.old.limit }
    {
        if self.kept < self.limit {
            self.kept += 1;
        }
    }

    /// Notes a step.
    pub(crate) fn note_step(&mut self)
        requires { suc self.old.steps < 2 ^ 64 }
        ensures pokes { self.new.pokes ≡ self.old.pokes }
        ensures steps { self.new.steps ≡ suc self.old.steps }
        ensures kept { self.new.kept ≡ min (suc self.old.kept) self.old.limit }
        ensures limit { self.new.limit ≡ self.old.limit }
    {
        self.steps += 1;
        self.keep_one();
    }

    /// Notes a poke in the frame at a depth, or in the top one.
    ///
    /// # Errors
    ///
    /// Out of memory, and then nothing changes.
    pub(crate) fn note_poke(
        &mut self,
        depth: Option<usize>,
        shown: Shown,
        at: Option<u32>,
        word: u64,
    ) -> Result<(), AllocError>
        ensures limit { self.new.limit ≡ self.old.limit }
        ensures steps { OnOk result (self.new.steps ≡ 0) }
        ensures pokes { OnOk result (self.new.pokes.items ≡ self.old.pokes.items ++ record { steps = self.old.steps; depth = depth; shown = shown; at = at; word = word } ∷ []) }
        ensures kept { OnOk result (self.new.kept ≡ min (suc self.old.kept) self.old.limit) }
        ensures err { OnErr result ((self.new.pokes.items ≡ self.old.pokes.items) × (self.new.steps ≡ self.old.steps) × (self.new.kept ≡ self.old.kept)) }
    {
        self.pokes.push(NotedPoke {
            steps: self.steps,
            depth,
            shown,
            at,
            word,
        })?;
        self.steps = 0;
        self.keep_one();
        Ok(())
    }

    /// Forgets the last event.
    ///
    /// # Errors
    ///
    /// `NoHistory` where none can be taken back, and then nothing changes.
    pub(crate) fn forget_last(&mut self) -> Result<Undone, NoHistory>
        ensures limit { self.new.limit ≡ self.old.limit }
        ensures forgets { Forgets self.old.pokes.items self.old.steps self.old.kept result self.new.pokes.items self.new.steps self.new.kept }
    {
        if self.kept == 0 {
            return Err(NoHistory);
        }
        if self.steps > 0 {
            self.steps -= 1;
            self.kept -= 1;
            return Ok(Undone::Step);
        }
        match self.pokes.pop() {
            None => Err(NoHistory),
            Some(last) => {
                self.steps = last.steps;
                self.kept -= 1;
                Ok(Undone::Poke)
            }
        }
    }

    /// Changes how many events can be taken back at most.
    pub(crate) fn set_limit(&mut self, limit: usize)
        requires { (1 ≤ limit) × (limit ≤ 2 ^ 62) }
        ensures pokes { self.new.pokes ≡ self.old.pokes }
        ensures steps { self.new.steps ≡ self.old.steps }
        ensures kept { self.new.kept ≡ min self.old.kept limit }
        ensures limit { self.new.limit ≡ limit }
    {
        self.limit = limit;
        self.kept = self.kept.min(limit);
    }

    /// Forgets all but the last steps, as many as can be taken back at most.
    pub(crate) fn forget_older(&mut self)
        requires { self.old.limit ≤ self.old.steps }
        ensures pokes { self.new.pokes.items ≡ [] }
        ensures steps { self.new.steps ≡ self.old.limit }
        ensures kept { self.new.kept ≡ self.old.kept }
        ensures limit { self.new.limit ≡ self.old.limit }
    {
        self.pokes.clear();
        self.steps = self.limit as u64;
    }
}
