//! Sets of lanes, each kept in one word.
ghost use Rattle.std.specs.Prelude.{◌≡◌, ℕ, ◌+◌, ◌-◌, ◌*◌, ◌/◌, ◌%◌, ◌^◌, ◌<◌, ◌≤◌, Bool, true, false, not, ◌||◌, ◌==◌, replicate, slice_set, slice_index, length};
ghost use Rattle.std.specs.List.{count_by};
ghost use Rattle.gang_types.specs.Lanes.{Lanes, has, no_lane, lowest, without, and, lanes_where};
ghost use Rattle.gang_types.specs.Masks.{IsGangWidth, lanes_of, lanes_of_word, word_of_lanes};

use std::simd::prelude::{Simd, SimdPartialEq};

/// A set of lanes of a gang of `W` lanes, where a call names `W`.
#[derive(Clone, Copy, Debug, PartialEq, Eq, Drop)]
pub struct Mask {
    word: u64,
}

#[inline(always)]
fn every_bit<const W: usize>() -> u64
    requires { IsGangWidth W }
    ensures { result ≡ 2 ^ W - 1 }
{
    (1 << W) - 1
}

#[inline(always)]
fn one_bit(lane: usize) -> u64
    requires { lane < 64 }
    ensures { result ≡ 2 ^ lane }
{
    1 << lane
}

impl Mask {
    /// The set with no lane.
    #[inline(always)]
    pub fn none() -> Self
        ensures { (w : ℕ) → lanes_of w result ≡ replicate w false }
    {
        Mask { word: 0 }
    }

    /// The set of all lanes of the gang.
    #[inline(always)]
    pub fn all<const W: usize>() -> Self
        requires { IsGangWidth W }
        ensures { lanes_of W result ≡ replicate W true }
    {
        Mask {
            word: every_bit::<W>(),
        }
    }

    /// The set of one lane.
    #[inline(always)]
    pub fn only<const W: usize>(lane: usize) -> Self
        requires width { IsGangWidth W }
        requires within { lane < W }
        ensures { lanes_of W result ≡ slice_set (replicate W false) lane true }
    {
        Mask {
            word: one_bit(lane),
        }
    }

    /// The set that a word keeps: lane k is in it where bit k is 1.
    #[inline(always)]
    pub fn from_word<const W: usize>(word: u64) -> Self
        requires { IsGangWidth W }
        ensures lanes { lanes_of W result ≡ lanes_of_word W word }
        ensures kept { (lanes : Lanes) → length lanes ≡ W → word ≡ word_of_lanes lanes → lanes_of W result ≡ lanes }
    {
        Mask {
            word: word & every_bit::<W>(),
        }
    }

    /// The word that keeps the set: bit k is 1 for lane k, and no other bit is.
    #[inline(always)]
    pub fn word<const W: usize>(self) -> u64
        requires { IsGangWidth W }
        ensures { result ≡ word_of_lanes (lanes_of W self) }
    {
        self.word & every_bit::<W>()
    }

    /// Whether the lane is in the set.
    #[inline(always)]
    pub fn has<const W: usize>(self, lane: usize) -> bool
        requires { IsGangWidth W }
        ensures { result ≡ has (lanes_of W self) lane }
    {
        lane < W && (self.word >> lane) % 2 == 1
    }

    /// Whether the set has no lane.
    #[inline(always)]
    pub fn is_empty<const W: usize>(self) -> bool
        requires { IsGangWidth W }
        ensures { result ≡ no_lane (lanes_of W self) }
    {
        self.word::<W>() == 0
    }

    /// How many lanes the set has.
    #[inline(always)]
    pub fn count<const W: usize>(self) -> usize
        requires { IsGangWidth W }
        ensures value { result ≡ count_by (λ b. b) (lanes_of W self) }
        ensures within { result ≤ W }
    {
        self.word::<W>().count_ones() as usize
    }

    /// The lowest lane of the set.
    #[inline(always)]
    pub fn lowest<const W: usize>(self) -> usize
        requires width { IsGangWidth W }
        requires lane { no_lane (lanes_of W self) ≡ false }
        ensures value { result ≡ lowest (lanes_of W self) }
        ensures within { result < W }
    {
        self.word.trailing_zeros() as usize
    }

    /// The lanes of both sets.
    #[inline(always)]
    pub fn and(self, other: Mask) -> Self
        ensures { (w : ℕ) → lanes_of w result ≡ and (lanes_of w self) (lanes_of w other) }
    {
        Mask {
            word: self.word & other.word,
        }
    }

    /// The lanes of either set.
    #[inline(always)]
    pub fn or(self, other: Mask) -> Self
        ensures { (w k : ℕ) → k < w → has (lanes_of w result) k ≡ (has (lanes_of w self) k || has (lanes_of w other) k) }
    {
        Mask {
            word: self.word | other.word,
        }
    }

    /// The lanes of the first set that are not in the second.
    #[inline(always)]
    pub fn without(self, other: Mask) -> Self
        ensures { (w : ℕ) → lanes_of w result ≡ without (lanes_of w self) (lanes_of w other) }
    {
        Mask {
            word: self.word & !other.word,
        }
    }

    /// The set with one lane more.
    #[inline(always)]
    pub fn with<const W: usize>(self, lane: usize) -> Self
        requires width { IsGangWidth W }
        requires within { lane < W }
        ensures { lanes_of W result ≡ slice_set (lanes_of W self) lane true }
    {
        Mask {
            word: self.word | one_bit(lane),
        }
    }

    /// The lanes of the set whose word is not 0.
    #[inline(always)]
    pub fn where_true<const W: usize>(self, words: [u64; W]) -> Self
        requires { IsGangWidth W }
        ensures { lanes_of W result ≡ lanes_where (lanes_of W self) (λ k. not (slice_index words.entry k == 0)) }
    {
        let chosen = Simd::from_array(words)
            .simd_ne(Simd::splat(0u64))
            .to_bitmask();
        Mask {
            word: self.word & chosen,
        }
    }
}
