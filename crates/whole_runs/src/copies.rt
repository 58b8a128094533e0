//! Copies of all words at some moments of a run.
ghost use Rattle.std.specs.Prelude.{◌≡◌, ◌≤◌, ℕ, [], filter, length, remove};
ghost use Rattle.whole_runs.specs.Copies.{MayKeep, is_within, most_copies};

use crate::notes::Notes;
use std::alloc::Global;

/// All words of a machine after so many pokes of its run, and so many steps after the last of these.
#[derive(Debug, Drop)]
pub struct CopiedMoment {
    pub pokes: usize,
    pub steps: u64,
    pub words: Vec<u64>,
}

impl CopiedMoment {
    /// Whether the moment is none after the last of the noted events.
    pub(crate) fn is_within(&self, notes: &Notes) -> bool
        ensures { result ≡ is_within notes.now.pokes.items notes.now.steps self.now.pokes self.now.steps }
    {
        let pokes = notes.pokes.len();
        self.pokes < pokes || (self.pokes == pokes && self.steps <= notes.steps)
    }
}

/// How many words all copies have at most, where that allows a few copies.
const COPIED_WORDS: usize = 1 << 23;

/// When copies are made: how many there are at most, how many events are between two of them at least, how many of these are left up to
/// the next one, and which of them goes next where there are too many.
#[derive(Clone, Copy, Debug)]
pub struct CopyPlan {
    pub most: usize,
    pub distance: u64,
    left: u64,
    next_to_go: usize,
}

impl CopyPlan {
    /// At most so many copies, with so many events between two of them at first.
    pub const fn new(most: usize, distance: u64) -> Self
        ensures { result.most ≡ most }
    {
        CopyPlan {
            most,
            distance,
            left: distance,
            next_to_go: 0,
        }
    }

    /// That of a machine of so many words: all copies have some eight million words, but that there may be 8 copies, and making them takes
    /// little of the time of the steps between them.
    pub fn of_words(words: usize) -> Self
        ensures { result.most ≡ most_copies words }
    {
        let most = (COPIED_WORDS / words.max(1)).clamp(8, 1024);
        Self::new(most, (words as u64).saturating_mul(2).max(4096))
    }

    /// Counts an event that happened: whether a copy is due after it.
    pub(crate) fn count_event(&mut self) -> bool
        ensures { self.new.most ≡ self.old.most }
    {
        let is_due = self.left <= 1;
        self.left = if is_due { self.distance } else { self.left - 1 };
        is_due
    }

    /// Which of so many copies goes: every second one, from the oldest on, and then the distance between two new ones is double.
    pub(crate) fn one_to_go(&mut self, copies: usize) -> usize
        ensures { self.new.most ≡ self.old.most }
    {
        if self.next_to_go == 0 || self.next_to_go >= copies / 2 {
            self.next_to_go = 0;
            self.distance = self.distance.saturating_mul(2);
            self.left = self.distance;
        }
        let goes = self.next_to_go;
        self.next_to_go = self.next_to_go.saturating_add(1);
        goes
    }
}

/// Copies at some moments, the oldest first, and when the next one is made.
#[derive(Debug, Drop)]
pub struct Copies {
    pub all: Vec<CopiedMoment>,
    pub plan: CopyPlan,
    pub ghost few: { length all.items ≤ plan.most },
}

impl Copies {
    /// None yet.
    pub fn none(alloc: Global, plan: CopyPlan) -> Self
        ensures all { result.all.items ≡ [] }
        ensures most { result.plan.most ≡ plan.most }
    {
        Copies {
            all: Vec::new(alloc),
            plan,
        }
    }

    /// Counts an event: whether a copy is due after it.
    pub(crate) fn is_due(&mut self) -> bool
        ensures all { self.new.all ≡ self.old.all }
        ensures most { self.new.plan.most ≡ self.old.plan.most }
    {
        self.plan.count_event()
    }

    /// One of them goes, if there are as many as there can be.
    fn make_place(&mut self)
        ensures all { (i : ℕ) × (self.new.all.items ≡ remove self.old.all.items i) }
        ensures most { self.new.plan.most ≡ self.old.plan.most }
    {
        let count = self.all.len();
        if count < self.plan.most {
            return;
        }
        let goes = self.plan.one_to_go(count);
        if goes < count {
            self.all.remove(goes);
        }
    }

    /// One more, and another one goes, if there are as many as there can be. Without memory for it there is none more.
    pub(crate) fn keep(&mut self, copy: CopiedMoment)
        ensures all { MayKeep self.old.all.items copy self.new.all.items }
        ensures most { self.new.plan.most ≡ self.old.plan.most }
    {
        self.make_place();
        if self.all.len() < self.plan.most {
            let _ = self.all.push(copy);
        }
    }

    /// Those of a moment after the last of the noted events go.
    pub(crate) fn drop_past(&mut self, notes: &Notes)
        ensures all { self.new.all.items ≡ filter (λ c. is_within notes.now.pokes.items notes.now.steps c.pokes c.steps) self.old.all.items }
        ensures most { self.new.plan.most ≡ self.old.plan.most }
    {
        self.all.retain(|copy| copy.is_within(notes));
    }

    /// All of them go.
    pub(crate) fn clear(&mut self)
        ensures all { self.new.all.items ≡ [] }
        ensures most { self.new.plan.most ≡ self.old.plan.most }
    {
        self.all.clear();
    }
}
