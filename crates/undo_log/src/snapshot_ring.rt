//! The plain form of a record: a whole list of words for each kept event.
ghost use Rattle.std.specs.Prelude.{◌≡◌, ◌^◌, ◌<◌, ◌≤◌, [], false, length, replicate, IfOk, OnOk, OnErr};
ghost use Rattle.undo_log.specs.History.{SameBetween, new_history, limited, TakenBack};

use crate::events::{forget_at, steps_among, steps_of};
use crate::timeline::{Back, NoHistory, Timeline, Undone};
use circular_buffer::HeapCircularBuffer;
use std::alloc::{AllocError, Global};
use std::marker::Model;
use std::mem;

/// A record that keeps a copy of all words for each event. It has `limit + 1` lists of words at least, whose memory is taken by
/// `new`, and by `set_limit` to a larger limit.
#[derive(Drop)]
pub struct SnapshotRing {
    words: Vec<u64>,
    /// In front the words before the kept events, from the newest to the oldest. The others are spare.
    lists: HeapCircularBuffer<Vec<u64>>,
    events: HeapCircularBuffer<Undone>,
    steps: usize,
    limit: usize,
}

impl Model for SnapshotRing {
    ghost use Rattle.undo_log.specs.History.{History};

    ghost Value = { History };

    ghost use Rattle.undo_log.specs.Snapshots.{snapshots_seen, AreSnapshots};

    ghost view = { snapshots_seen };

    ghost invariant = { AreSnapshots };
}

impl SnapshotRing {
    /// A record of this many words, all 0, that keeps nothing. `limit` is the most events that are kept.
    ///
    /// # Errors
    ///
    /// Out of memory.
    pub fn new(alloc: Global, words: usize, limit: usize) -> Result<Self, AllocError>
        requires { (1 ≤ limit) × (limit ≤ 65536) }
        ensures { IfOk result (λ r. r ≡ new_history words limit usize.MAX) }
    {
        let mut lists = HeapCircularBuffer::with_capacity(alloc, limit)?;
        for _ in 0..limit {
            let _ = lists.push_back(vec![in alloc; 0; words]?);
        }
        let events = HeapCircularBuffer::with_capacity(alloc, limit)?;
        let words = vec![in alloc; 0; words]?;
        Ok(SnapshotRing {
            words,
            lists,
            events,
            steps: 0,
            limit,
        })
    }

    /// Raises the limit. All memory is taken first.
    fn grow(&mut self, larger: usize) -> Result<(), AllocError>
        requires { (self.old.limit ≤ larger) × (larger ≤ 65536) }
        ensures ok { OnOk result (self.new ≡ limited larger self.old) }
        ensures err { OnErr result (self.new ≡ self.old) }
    {
        self.events.resize(larger)?;
        self.lists.resize(larger.max(self.lists.len()))?;
        while self.lists.len() < larger {
            let list = self.words.clone()?;
            let _ = self.lists.push_back(list);
        }
        self.limit = larger;
        Ok(())
    }
}

impl Timeline for SnapshotRing {
    ghost history = { λ r. r };

    ghost left = { λ r. r.room };

    #[inline(always)]
    fn word(&self, index: usize) -> u64 {
        self.words[index]
    }

    #[inline(always)]
    fn set(&mut self, index: usize, value: u64) {
        self.words[index] = value;
    }

    fn set_run(&mut self, first: usize, values: &[u64]) {
        for index in 0..values.len() {
            self.set(first + index, values[index]);
        }
    }

    fn mark(&mut self, event: Undone) {
        let Some(mut list) = self.lists.pop_back() else {
            return;
        };
        list.as_mut_slice().copy_from_slice(self.words.as_slice());
        let _ = self.lists.push_front(list);
        self.steps -= forget_at(&mut self.events, self.limit);
        self.steps += steps_of(event);
        let _ = self.events.push_front(event);
    }

    fn back(&mut self) -> Result<Back, NoHistory>
        ensures answer { TakenBack self.old result self.new }
        ensures words { IfOk result (λ back. back.written ≡ length self.old.words) }
        ensures written { IfOk result (λ back. back.written ≤ self.old.room) }
        ensures left { OnErr result (self.new.room ≡ self.old.room) }
    {
        let Some(event) = self.events.pop_front() else {
            return Err(NoHistory);
        };
        let Some(mut list) = self.lists.pop_front() else {
            return Err(NoHistory);
        };
        self.steps -= steps_of(event);
        mem::swap(&mut self.words, &mut list);
        let written = list.len();
        let _ = self.lists.push_back(list);
        Ok(Back { event, written })
    }

    fn may_have_set(&self, first: usize, end: usize) -> bool {
        if self.events.is_empty() {
            return true;
        }
        match self.lists.front() {
            Some(before) => differ_between(self.words.as_slice(), before.as_slice(), first, end),
            None => true,
        }
    }

    #[inline(always)]
    fn kept(&self) -> usize {
        self.events.len()
    }

    #[inline(always)]
    fn kept_steps(&self) -> usize {
        self.steps
    }

    #[inline(always)]
    fn limit(&self) -> usize {
        self.limit
    }

    fn set_limit(&mut self, limit: usize) -> Result<(), AllocError> {
        if limit <= self.limit {
            self.events.truncate_back(limit);
            self.steps = steps_among(&self.events);
            self.limit = limit;
            return Ok(());
        }
        self.grow(limit)
    }

    #[inline(always)]
    fn room(&self) -> usize {
        // Reading a field tells the proof what the record's fields mean.
        let _limit = self.limit;
        usize::MAX
    }
}

/// Whether two lists differ in a word of an index from `first` on and before `end`.
fn differ_between(words: &[u64], before: &[u64], first: usize, end: usize) -> bool
    requires { length words.now ≡ length before.now }
    ensures { result ≡ false → SameBetween first end before.now words.now }
{
    for index in first..end.min(words.len()) {
        if words[index] != before[index] {
            return true;
        }
    }
    false
}
