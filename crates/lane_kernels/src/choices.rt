//! Choices between the words of lanes.
ghost use Rattle.std.specs.Prelude.{◌≡◌, ℕ, ◌<◌, length, slice_index, nat_eq, if◌then◌else◌};
ghost use Rattle.gang_types.specs.Values.{binary_of};
ghost use Rattle.gang_types.specs.Library.{lesser, larger, clamped};
ghost use Rattle.gang_types.specs.Masks.{IsGangWidth};
ghost use Rattle.lane_kernels.specs.Lanes.{InEachLane};

use crate::vectors::{biased_lanes, choose_where_less};
use gang_types::IntType;
use std::simd::prelude::*;

/// The word of `a` in each lane where the word of `chosen` is not 0, and of `b` in the others.
pub fn select<const W: usize>(chosen: [u64; W], a: [u64; W], b: [u64; W]) -> [u64; W]
    requires { IsGangWidth W }
    ensures { (i : ℕ) → i < W → slice_index result i ≡ (if nat_eq (slice_index chosen.entry i) 0 then slice_index b.entry i else slice_index a.entry i) }
{
    Simd::from_array(chosen)
        .simd_ne(Simd::splat(0u64))
        .select(Simd::from_array(a), Simd::from_array(b))
        .to_array()
}

/// The lesser values.
pub fn min<const W: usize>(ty: IntType, a: [u64; W], b: [u64; W]) -> [u64; W]
    requires { IsGangWidth W }
    ensures { InEachLane W (lesser ty) a.entry b.entry result }
{
    let x = Simd::from_array(a);
    let y = Simd::from_array(b);
    choose_where_less(biased_lanes(ty, y), biased_lanes(ty, x), y, x)
}

/// The larger values.
pub fn max<const W: usize>(ty: IntType, a: [u64; W], b: [u64; W]) -> [u64; W]
    requires { IsGangWidth W }
    ensures { InEachLane W (larger ty) a.entry b.entry result }
{
    let x = Simd::from_array(a);
    let y = Simd::from_array(b);
    choose_where_less(biased_lanes(ty, x), biased_lanes(ty, y), y, x)
}

/// The values brought up to the low end, and then down to the high end.
pub fn clamp<const W: usize>(ty: IntType, a: [u64; W], low: [u64; W], high: [u64; W]) -> [u64; W]
    requires { IsGangWidth W }
    ensures { (i : ℕ) → i < W → slice_index result i ≡ clamped ty (slice_index a.entry i) (slice_index low.entry i) (slice_index high.entry i) }
{
    min(ty, max(ty, a, low), high)
}
