//! Words that are read and set by their numbers.
ghost use Rattle.std.specs.Prelude.{◌≡◌, ℕ, ◌+◌, ◌-◌, ◌^◌, ◌<◌, ◌≤◌, List, length, slice_index, slice_set};
ghost use Rattle.std.specs.Simd.Lanes.{put_chunk};

/// Words that are read and set by their numbers.
pub trait WordStore {
    /// What a store has besides its words.
    ghost Rest: { Type 0 };

    /// The words.
    ghost words: { Self → List ℕ };

    /// How many words may still be set.
    ghost left: { Self → ℕ };

    /// What setting words leaves as it is.
    ghost rest: { Self → Rest };

    /// The word at `index`.
    fn word(&self, index: usize) -> u64
        requires { index < length (words self.now) }
        ensures { result ≡ slice_index (words self.now) index };

    /// Sets the word at `index`.
    fn set(&mut self, index: usize, value: u64)
        requires in_range { index < length (words self.old) }
        requires left { 0 < left self.old }
        ensures words { words self.new ≡ slice_set (words self.old) index value }
        ensures left { left self.old ≤ left self.new + 1 }
        ensures rest { rest self.new ≡ rest self.old };

    /// Sets the words from `first` on to these.
    fn set_run(&mut self, first: usize, values: &[u64])
        requires small { first + length values.now < 2 ^ 64 }
        requires in_range { first + length values.now ≤ length (words self.old) }
        requires left { length values.now ≤ left self.old }
        ensures words { words self.new ≡ put_chunk first (words self.old) values.now }
        ensures left { left self.old ≤ left self.new + length values.now }
        ensures rest { rest self.new ≡ rest self.old };
}

/// A list of words in memory; any number of them may be set.
impl WordStore for Vec<u64> {
    ghost Rest = { Unit {0} };

    ghost words = { λ list. list.items };

    ghost left = { λ _. 2 ^ 64 - 1 };

    ghost rest = { λ _. tt };

    #[inline(always)]
    fn word(&self, index: usize) -> u64 {
        self[index]
    }

    #[inline(always)]
    fn set(&mut self, index: usize, value: u64) {
        self[index] = value;
    }

    fn set_run(&mut self, first: usize, values: &[u64]) {
        for index in 0..values.len() {
            self[first + index] = values[index];
        }
    }
}
