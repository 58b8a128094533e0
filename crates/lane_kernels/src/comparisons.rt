//! Comparisons: 1 in a lane where they hold, and 0 where they do not.
ghost use Rattle.std.specs.Prelude.{◌≡◌, ℕ, ◌+◌, ◌<◌, length, slice_index};
ghost use Rattle.gang_types.specs.Values.{binary_of, unary_of};
ghost use Rattle.gang_types.specs.declared.operators.BinaryOp.TheVariants.{Less, LessEqual, Greater, GreaterEqual, Equal, NotEqual};
ghost use Rattle.gang_types.specs.declared.operators.UnaryOp.TheVariants.{Not};
ghost use Rattle.gang_types.specs.Masks.{IsGangWidth};
ghost use Rattle.lane_kernels.specs.Lanes.{InEachLane, OfEachLane};

use crate::vectors::{biased_lanes, where_equal, where_less};
use gang_types::IntType;
use std::simd::prelude::*;

/// Whether the first value is below the second.
pub fn less<const W: usize>(ty: IntType, a: [u64; W], b: [u64; W]) -> [u64; W]
    requires { IsGangWidth W }
    ensures { InEachLane W (binary_of Less ty) a.entry b.entry result }
{
    let x = biased_lanes(ty, Simd::from_array(a));
    let y = biased_lanes(ty, Simd::from_array(b));
    where_less(x, y, 1, 0)
}

/// Whether the first value is not above the second.
pub fn less_equal<const W: usize>(ty: IntType, a: [u64; W], b: [u64; W]) -> [u64; W]
    requires { IsGangWidth W }
    ensures { InEachLane W (binary_of LessEqual ty) a.entry b.entry result }
{
    let x = biased_lanes(ty, Simd::from_array(a));
    let y = biased_lanes(ty, Simd::from_array(b));
    where_less(y, x, 0, 1)
}

/// Whether the first value is above the second.
pub fn greater<const W: usize>(ty: IntType, a: [u64; W], b: [u64; W]) -> [u64; W]
    requires { IsGangWidth W }
    ensures { InEachLane W (binary_of Greater ty) a.entry b.entry result }
{
    less(ty, b, a)
}

/// Whether the first value is not below the second.
pub fn greater_equal<const W: usize>(ty: IntType, a: [u64; W], b: [u64; W]) -> [u64; W]
    requires { IsGangWidth W }
    ensures { InEachLane W (binary_of GreaterEqual ty) a.entry b.entry result }
{
    less_equal(ty, b, a)
}

/// Whether the words are equal.
pub fn equal<const W: usize>(ty: IntType, a: [u64; W], b: [u64; W]) -> [u64; W]
    requires { IsGangWidth W }
    ensures { InEachLane W (binary_of Equal ty) a.entry b.entry result }
{
    where_equal(Simd::from_array(a), Simd::from_array(b), 1, 0)
}

/// Whether the words differ.
pub fn not_equal<const W: usize>(ty: IntType, a: [u64; W], b: [u64; W]) -> [u64; W]
    requires { IsGangWidth W }
    ensures { InEachLane W (binary_of NotEqual ty) a.entry b.entry result }
{
    where_equal(Simd::from_array(a), Simd::from_array(b), 0, 1)
}

/// Whether the word is 0.
pub fn not<const W: usize>(ty: IntType, a: [u64; W]) -> [u64; W]
    requires { IsGangWidth W }
    ensures { OfEachLane W (unary_of Not ty) a.entry result }
{
    where_equal(Simd::from_array(a), Simd::splat(0), 1, 0)
}
