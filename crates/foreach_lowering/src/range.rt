//! The index values of one dimension.
ghost use Rattle.std.specs.Prelude.{◌≡◌, ◌<◌, ◌≤◌, ◌^◌, [], ◌∷◌, option_map};
ghost use Rattle.foreach_lowering.specs.Domains.{count_of, index_of, nth_of, parts_of};

/// The whole numbers from `low` up to `high`, without it.
#[derive(Clone, Copy, Debug, PartialEq, Eq)]
pub struct Range {
    pub low: i64,
    pub high: i64,
}

impl Range {
    /// How many there are.
    pub fn count(self) -> u64
        ensures { result ≡ count_of (self.low, self.high) }
    {
        let low = i128::from(self.low);
        let high = i128::from(self.high);
        if high > low { (high - low) as u64 } else { 0 }
    }

    /// How many parts of this size cover them.
    pub fn parts(self, size: u64) -> u64
        requires { (1 ≤ size) × (size ≤ 16) }
        ensures { result ≡ parts_of size (count_of (self.low, self.high)) }
    {
        self.count().div_ceil(size)
    }

    /// The n-th number from `low` on.
    pub fn at(self, n: u128) -> i128
        requires { n < 2 ^ 70 }
        ensures { result ≡ index_of (self.low, self.high) n }
    {
        i128::from(self.low) + n as i128
    }

    /// The n-th of them, if there are so many: the index is compared with the bound before it is made a word.
    pub fn nth(self, n: u128) -> Option<i128>
        requires { n < 2 ^ 70 }
        ensures { option_map (λ z. z ∷ []) result ≡ nth_of (self.low, self.high) n }
    {
        let index = self.at(n);
        if index < i128::from(self.high) {
            Some(index)
        } else {
            None
        }
    }
}
