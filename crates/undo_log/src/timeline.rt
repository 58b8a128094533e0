//! What a record of old words is, however it is kept.
ghost use Rattle.std.specs.Prelude.{◌≡◌, ◌+◌, ◌^◌, ◌<◌, ◌≤◌, ℕ, false, length, slice_index, IfOk, OnOk, OnErr, IsOk};
ghost use Rattle.undo_log.specs.History.{History, HasSetNone, with_word, with_run, marked, limited, TakenBack, steps_in};

use std::alloc::AllocError;
use thiserror::Error;

/// What an event is: a step of the program, or a value that the user set.
#[derive(Clone, Copy, Debug, PartialEq, Eq)]
pub enum Undone {
    Step,
    Poke,
}

/// An event that was taken back, and how many words were written to take it back.
#[derive(Clone, Copy, Debug, PartialEq, Eq)]
pub struct Back {
    pub event: Undone,
    pub written: usize,
}

/// No event is kept, so none can be taken back.
#[derive(Clone, Copy, Debug, PartialEq, Eq, Error)]
#[error("no event is kept")]
pub struct NoHistory;

/// Words that are set, and taken back event by event. No call takes memory but `set_limit` to a larger limit.
pub trait Timeline {
    ghost use Rattle.undo_log.specs.History.{History};

    /// The words now, and the words before each kept event.
    ghost history: { Self → History };

    /// How many words may still be set while an event is kept. Taking an event back says nothing of it.
    ghost left: { Self → ℕ };

    /// The word at `index`.
    fn word(&self, index: usize) -> u64
        requires { index < length (history self.now).words }
        ensures { result ≡ slice_index (history self.now).words index };

    /// Sets the word at `index`. While an event is kept, at most `room` calls may follow its mark.
    fn set(&mut self, index: usize, value: u64)
        requires in_range { index < length (history self.old).words }
        requires room { 0 < length (history self.old).past → 0 < left self.old }
        ensures history { history self.new ≡ with_word index value (history self.old) }
        ensures left { left self.old ≤ left self.new + 1 };

    /// Sets the words from `first` on to these. While an event is kept, at most `room` words may be set after its mark.
    fn set_run(&mut self, first: usize, values: &[u64])
        requires small { first + length values.now < 2 ^ 64 }
        requires in_range { first + length values.now ≤ length (history self.old).words }
        requires room { 0 < length (history self.old).past → length values.now ≤ left self.old }
        ensures history { history self.new ≡ with_run first values.now (history self.old) }
        ensures left { left self.old ≤ left self.new + length values.now };

    /// Opens an event, before its words are set. With `limit` events kept, the oldest goes.
    fn mark(&mut self, event: Undone)
        ensures history { history self.new ≡ marked event (history self.old) }
        ensures left { left self.new ≡ (history self.old).room };

    /// Takes the newest kept event back: all words are again those before it.
    ///
    /// # Errors
    ///
    /// `NoHistory` where no event is kept, and then nothing changes.
    fn back(&mut self) -> Result<Back, NoHistory>
        ensures answer { TakenBack (history self.old) result (history self.new) }
        ensures written { IfOk result (λ back. back.written ≤ (history self.old).room) }
        ensures left { OnErr result (left self.new ≡ left self.old) };

    /// Whether the newest kept event may have set a word of an index from `first` on and before `end`. Where no event is kept, it may.
    fn may_have_set(&self, first: usize, end: usize) -> bool
        ensures { result ≡ false → HasSetNone first end (history self.now) };

    /// The number of kept events.
    fn kept(&self) -> usize
        ensures { result ≡ length (history self.now).past };

    /// The number of kept steps.
    fn kept_steps(&self) -> usize
        ensures { result ≡ steps_in (history self.now).past };

    /// The most events that are kept.
    fn limit(&self) -> usize
        ensures some { 1 ≤ result }
        ensures most { result ≤ 65536 }
        ensures limit { result ≡ (history self.now).limit }
        ensures kept { length (history self.now).past ≤ result };

    /// Changes the limit. A smaller limit drops the oldest events and takes no memory.
    ///
    /// # Errors
    ///
    /// Out of memory. A larger limit takes all its memory first: where that is refused, nothing changes.
    fn set_limit(&mut self, limit: usize) -> Result<(), AllocError>
        requires { (1 ≤ limit) × (limit ≤ 65536) }
        ensures ok { OnOk result (history self.new ≡ limited limit (history self.old)) }
        ensures err { OnErr result (history self.new ≡ history self.old) }
        ensures left { left self.new ≡ left self.old }
        ensures smaller { limit ≤ (history self.old).limit → IsOk result };

    /// The most words that may be set after one mark.
    fn room(&self) -> usize
        ensures { result ≡ (history self.now).room };
}
