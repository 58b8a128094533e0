//! The compact form of a record: one list of words, and the old words of the kept events.
ghost use Rattle.std.specs.Prelude.{◌≡◌, ◌+◌, ◌-◌, ◌^◌, ◌<◌, ◌≤◌, [], ◌∷◌, take, drop, length, All, slice_index, IfOk, OnOk, OnErr, IsOk};
ghost use Rattle.circular_buffer.specs.Buffer.{buffer};

use crate::changes::{Change, exchange, is_any_between, write_back};
use crate::events::{Mark, steps_of};
use crate::timeline::{Back, NoHistory, Timeline, Undone};
use circular_buffer::HeapCircularBuffer;
use std::alloc::{AllocError, Global};
use std::marker::Model;

/// A record that keeps, for each `set` since the oldest kept event was opened, the word as it was before. Taking an event back
/// writes just its words.
#[derive(Drop)]
pub struct DeltaRing {
    words: Vec<u64>,
    /// The newest comes last.
    changes: HeapCircularBuffer<Change>,
    /// The newest comes first.
    marks: HeapCircularBuffer<Mark>,
    steps: usize,
    limit: usize,
    cells: usize,
}

impl Model for DeltaRing {
    ghost use Rattle.undo_log.specs.Deltas.{Deltas};

    ghost Value = { Deltas };

    ghost use Rattle.undo_log.specs.DeltaRings.{deltas_seen, AreDeltas};

    ghost view = { deltas_seen };

    ghost invariant = { AreDeltas };
}

impl DeltaRing {
    ghost use Rattle.undo_log.specs.declared.timeline.Undone.{Undone};
    ghost use Rattle.undo_log.specs.History.{new_history, with_run, marked, limited};
    ghost use Rattle.undo_log.specs.Deltas.{deltas, left_of};

    /// A record of this many words, all 0, that keeps nothing. `limit` is the most events that are kept, and `cells` the most words
    /// that may be set after one mark.
    ///
    /// # Errors
    ///
    /// Out of memory.
    pub fn new(alloc: Global, words: usize, limit: usize, cells: usize) -> Result<Self, AllocError>
        requires limit { (1 ≤ limit) × (limit ≤ 65536) }
        requires cells { cells ≤ 65536 }
        ensures { IfOk result (λ r. r ≡ deltas (new_history words limit cells) []) }
    {
        let changes = HeapCircularBuffer::with_capacity(alloc, limit * cells)?;
        let marks = HeapCircularBuffer::with_capacity(alloc, limit)?;
        let words = vec![in alloc; 0; words]?;
        Ok(DeltaRing {
            words,
            changes,
            marks,
            steps: 0,
            limit,
            cells,
        })
    }

    /// Forgets the oldest event, and the old words of that event alone.
    fn forget_oldest(&mut self)
        ensures history { self.new.history ≡ record self.old.history { past = take (length self.old.history.past - 1) self.old.history.past } }
        ensures counts { self.new.counts ≡ take (length self.old.history.past - 1) self.old.counts }
    {
        let Some(oldest) = self.marks.pop_back() else {
            return;
        };
        self.steps -= steps_of(oldest.event);
        let rest = self.changes.len() - oldest.count;
        self.changes.truncate_front(rest);
    }

    /// Makes room for a mark: with `limit` events kept, the oldest goes.
    #[inline(always)]
    fn make_room(&mut self)
        ensures room { length self.new.history.past < self.new.history.limit }
        ensures marked { (event : Undone) → marked event self.new.history ≡ marked event self.old.history }
        ensures counts { take self.new.history.limit (0 ∷ self.new.counts) ≡ take self.old.history.limit (0 ∷ self.old.counts) }
        ensures words { (self.new.history.limit ≡ self.old.history.limit) × (self.new.history.room ≡ self.old.history.room) }
    {
        if self.marks.len() < self.limit {
            return;
        }
        self.forget_oldest();
    }

    /// Sets the words from `first` on to these `W`, and keeps what they were as one run.
    #[inline(always)]
    fn exchange_run<const W: usize>(&mut self, first: usize, values: &[u64])
        requires width { length values.now ≡ W }
        requires few { W ≤ 16 }
        requires small { first + length values.now < 2 ^ 64 }
        requires in_range { first + length values.now ≤ length self.old.history.words }
        requires room { 0 < length self.old.history.past → length values.now ≤ left_of self.old.history.room self.old.counts }
        ensures history { self.new.history ≡ with_run first values.now self.old.history }
        ensures left { left_of self.old.history.room self.old.counts ≤ left_of self.new.history.room self.new.counts + length values.now }
    {
        let changes = exchange::<W>(self.words.as_mut_slice(), first, values);
        let Some(latest) = self.marks.get_mut(0) else {
            return;
        };
        latest.count += values.len();
        self.changes.extend_from_slice(&changes);
    }

    /// Sets the words from `first` on to these, one by one.
    fn set_each(&mut self, first: usize, values: &[u64])
        requires small { first + length values.now < 2 ^ 64 }
        requires in_range { first + length values.now ≤ length self.old.history.words }
        requires room { 0 < length self.old.history.past → length values.now ≤ left_of self.old.history.room self.old.counts }
        ensures history { self.new.history ≡ with_run first values.now self.old.history }
        ensures left { left_of self.old.history.room self.old.counts ≤ left_of self.new.history.room self.new.counts + length values.now }
    {
        for index in 0..values.len() {
            self.set(first + index, values[index]);
        }
    }

    /// Lowers the limit. Past it the oldest events go.
    fn shrink(&mut self, smaller: usize)
        requires { (1 ≤ smaller) × (smaller ≤ self.old.history.limit) }
        ensures history { self.new.history ≡ limited smaller self.old.history }
        ensures counts { self.new.counts ≡ take smaller self.old.counts }
    {
        while self.marks.len() > smaller {
            self.forget_oldest();
        }
        self.limit = smaller;
    }

    /// Raises the limit. All memory is taken first.
    fn grow(&mut self, larger: usize) -> Result<(), AllocError>
        requires { (self.old.history.limit ≤ larger) × (larger ≤ 65536) }
        ensures ok { OnOk result (self.new ≡ deltas (limited larger self.old.history) (take larger self.old.counts)) }
        ensures err { OnErr result (self.new ≡ self.old) }
    {
        self.changes.resize(larger * self.cells)?;
        self.marks.resize(larger)?;
        self.limit = larger;
        Ok(())
    }
}

impl Timeline for DeltaRing {
    ghost use Rattle.undo_log.specs.History.{with_word, marked, limited, TakenBack};
    ghost use Rattle.undo_log.specs.Deltas.{deltas, left_of, one_more};

    ghost history = { λ r. r.history };

    ghost left = { λ r. left_of r.history.room r.counts };

    #[inline(always)]
    fn word(&self, index: usize) -> u64 {
        self.words[index]
    }

    #[inline(always)]
    fn set(&mut self, index: usize, value: u64)
        requires in_range { index < length self.old.history.words }
        requires room { 0 < length self.old.history.past → 0 < left_of self.old.history.room self.old.counts }
        ensures history { self.new.history ≡ with_word index value self.old.history }
        ensures left { left_of self.old.history.room self.old.counts ≤ left_of self.new.history.room self.new.counts + 1 }
        ensures counts { self.new.counts ≡ one_more self.old.counts }
    {
        let old = self.words[index];
        self.words[index] = value;
        let Some(newest) = self.marks.get_mut(0) else {
            return;
        };
        newest.count += 1;
        let _ = self.changes.push_back(Change { index, old });
    }

    #[inline(always)]
    fn set_run(&mut self, first: usize, values: &[u64]) {
        match values.len() {
            4 => self.exchange_run::<4>(first, values),
            8 => self.exchange_run::<8>(first, values),
            16 => self.exchange_run::<16>(first, values),
            _ => self.set_each(first, values),
        }
    }

    #[inline(always)]
    fn mark(&mut self, event: Undone)
        ensures history { self.new.history ≡ marked event self.old.history }
        ensures left { left_of self.new.history.room self.new.counts ≡ self.old.history.room }
        ensures counts { self.new.counts ≡ take self.old.history.limit (0 ∷ self.old.counts) }
    {
        self.make_room();
        self.steps += steps_of(event);
        let _ = self.marks.push_front(Mark { event, count: 0 });
    }

    fn back(&mut self) -> Result<Back, NoHistory>
        ensures answer { TakenBack self.old.history result self.new.history }
        ensures counts { IfOk result (λ back. self.old.counts ≡ back.written ∷ self.new.counts) }
        ensures written { IfOk result (λ back. back.written ≤ self.old.history.room) }
        ensures unchanged { OnErr result (self.new ≡ self.old) }
    {
        let Some(mark) = self.marks.pop_front() else {
            return Err(NoHistory);
        };
        self.steps -= steps_of(mark.event);
        let written = write_back(self.words.as_mut_slice(), &mut self.changes, mark.count);
        Ok(Back {
            event: mark.event,
            written,
        })
    }

    fn may_have_set(&self, first: usize, end: usize) -> bool {
        match self.marks.front() {
            Some(newest) => is_any_between(&self.changes, newest.count, first, end),
            None => true,
        }
    }

    #[inline(always)]
    fn kept(&self) -> usize {
        self.marks.len()
    }

    #[inline(always)]
    fn kept_steps(&self) -> usize {
        self.steps
    }

    #[inline(always)]
    fn limit(&self) -> usize {
        self.limit
    }

    fn set_limit(&mut self, limit: usize) -> Result<(), AllocError>
        requires { (1 ≤ limit) × (limit ≤ 65536) }
        ensures ok { OnOk result (self.new ≡ deltas (limited limit self.old.history) (take limit self.old.counts)) }
        ensures err { OnErr result (self.new ≡ self.old) }
        ensures left { left_of self.new.history.room self.new.counts ≡ left_of self.old.history.room self.old.counts }
        ensures smaller { limit ≤ self.old.history.limit → IsOk result }
    {
        if limit <= self.limit {
            self.shrink(limit);
            return Ok(());
        }
        self.grow(limit)
    }

    #[inline(always)]
    fn room(&self) -> usize {
        self.cells
    }
}
