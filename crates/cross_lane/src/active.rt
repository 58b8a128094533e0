//! The words of the lanes of a mask.
ghost use Rattle.std.specs.Prelude.{◌≡◌, ℕ, ◌<◌, slice_index, if◌then◌else◌};
ghost use Rattle.std.specs.List.{range_with_len};
ghost use Rattle.gang_types.specs.Lanes.{has};
ghost use Rattle.gang_types.specs.Masks.{IsGangWidth, lanes_of};
ghost use Rattle.cross_lane.specs.Calls.{values_in};

use gang_types::Mask;
use std::simd::prelude::*;

/// The numbers of the lanes, from 0 on.
pub fn lane_numbers<const W: usize>() -> [u64; W]
    requires { IsGangWidth W }
    ensures { result ≡ range_with_len 0 W }
{
    let numbers: Simd<u64, W> = Simd::from_slice(&[
        0, 1, 2, 3, 4, 5, 6, 7, 8, 9, 10, 11, 12, 13, 14, 15,
    ]);
    numbers.to_array()
}

// The words of the lanes of the mask, and `fill` in the others.
pub(crate) fn filled_outside<const W: usize>(
    mask: Mask,
    fill: u64,
    words: Simd<u64, W>,
) -> Simd<u64, W>
    requires { IsGangWidth W }
    ensures { (i : ℕ) → i < W → slice_index result i ≡ (if has (lanes_of W mask) i then slice_index words.entry i else fill) }
{
    let bits = Simd::splat(mask.word::<W>()) >> Simd::from_array(lane_numbers());
    (bits & Simd::splat(1))
        .simd_eq(Simd::splat(1u64))
        .select(words, Simd::splat(fill))
}

/// The words of the lanes of the mask, and 0 in the others.
pub fn active_words<const W: usize>(mask: Mask, words: [u64; W]) -> [u64; W]
    requires { IsGangWidth W }
    ensures { result ≡ values_in (lanes_of W mask) words.entry }
{
    if mask.word::<W>() == (1 << W) - 1 {
        return words;
    }
    filled_outside(mask, 0, Simd::from_array(words)).to_array()
}
