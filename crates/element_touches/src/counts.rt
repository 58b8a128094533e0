//! What is counted of the times that an access is made.
ghost use Rattle.std.specs.Prelude.{◌≡◌, ◌^◌, ◌≤◌, ◌+◌, ℕ, length};
ghost use Rattle.element_touches.specs.Counted.{IsFew, none, with_touch};

use crate::orders::{different, is_consecutive, is_equal};

/// What is counted of the times that an access is made.
#[derive(Clone, Copy, Debug, PartialEq, Eq)]
pub struct AccessCounts {
    /// How often it is made.
    pub times: u64,
    /// The lanes that make it, together.
    pub lanes: u64,
    /// The different elements that they touch each time, together.
    pub elements: u64,
    /// How often each lane touches the element after that of the lane before it.
    pub consecutive: u64,
    /// How often all lanes touch one element.
    pub equal: u64,
    /// The elements of the other times, which no vector load and no broadcast reaches.
    pub scattered: u64,
}

impl AccessCounts {
    /// Nothing counted.
    pub fn none() -> Self
        ensures { result ≡ none }
    {
        AccessCounts {
            times: 0,
            lanes: 0,
            elements: 0,
            consecutive: 0,
            equal: 0,
            scattered: 0,
        }
    }

    /// The counts with one time more, at which lanes touch these elements.
    pub fn and_touch(self, elements: &[u64]) -> Self
        ensures value { IsFew (2 ^ 40) self → length elements.now ≤ 16 → result ≡ with_touch self elements.now }
        ensures few { (most : ℕ) → IsFew most self → length elements.now ≤ 16 → IsFew (most + 16) result }
    {
        let (is_row, is_one) = (is_consecutive(elements), is_equal(elements));
        let reached = different(elements) as u64;
        AccessCounts {
            times: self.times.saturating_add(1),
            lanes: self.lanes.saturating_add(elements.len() as u64),
            elements: self.elements.saturating_add(reached),
            consecutive: self.consecutive.saturating_add(u64::from(is_row)),
            equal: self.equal.saturating_add(u64::from(is_one)),
            scattered: self
                .scattered
                .saturating_add(if is_row || is_one { 0 } else { reached }),
        }
    }
}
