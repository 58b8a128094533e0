//! The words of a record that takes events back.
ghost use Rattle.std.specs.Prelude.{◌≡◌};
ghost use Rattle.undo_log.specs.History.{History};
ghost use Rattle.gang_memory.specs.Recorded.{left_in, without_words};

use crate::store::WordStore;
use undo_log::Timeline;

/// A timeline as a store: while an event is kept, as many words may be set as the timeline says.
#[derive(Drop)]
pub struct Recorded<T: Timeline + Drop> {
    pub timeline: T,
}

impl<T: Timeline + Drop> WordStore for Recorded<T> {
    ghost Rest = { History };

    ghost words = { λ store. (T.history store.timeline).words };

    ghost left = { λ store. left_in (T.history store.timeline).past (T.left store.timeline) };

    ghost rest = { λ store. without_words (T.history store.timeline) };

    #[inline(always)]
    fn word(&self, index: usize) -> u64 {
        self.timeline.word(index)
    }

    #[inline(always)]
    fn set(&mut self, index: usize, value: u64) {
        self.timeline.set(index, value);
    }

    #[inline(always)]
    fn set_run(&mut self, first: usize, values: &[u64]) {
        self.timeline.set_run(first, values);
    }
}
