//! Bit operations and shifts.
ghost use Rattle.std.specs.Prelude.{◌≡◌, ℕ, ◌+◌, ◌-◌, ◌*◌, ◌/◌, ◌%◌, ◌^◌, ◌<◌, ◌≤◌, length, slice_index};
ghost use Rattle.gang_types.specs.Values.{binary_of, unary_of};
ghost use Rattle.gang_types.specs.declared.operators.BinaryOp.TheVariants.{And, Or, Xor, Shl, Shr};
ghost use Rattle.gang_types.specs.declared.operators.UnaryOp.TheVariants.{Complement};
ghost use Rattle.gang_types.specs.Library.{bit_count};
ghost use Rattle.gang_types.specs.Masks.{IsGangWidth};
ghost use Rattle.lane_kernels.specs.Lanes.{InEachLane, OfEachLane};

use crate::vectors::{amounts, biased_lanes, narrow_lanes};
use gang_types::{IntType, bias, is_bool, low_bits};
use std::simd::prelude::*;

/// The bits of both words.
pub fn and<const W: usize>(ty: IntType, a: [u64; W], b: [u64; W]) -> [u64; W]
    requires { IsGangWidth W }
    ensures { InEachLane W (binary_of And ty) a.entry b.entry result }
{
    narrow_lanes(ty, Simd::from_array(a) & Simd::from_array(b)).to_array()
}

/// The bits of either word.
pub fn or<const W: usize>(ty: IntType, a: [u64; W], b: [u64; W]) -> [u64; W]
    requires { IsGangWidth W }
    ensures { InEachLane W (binary_of Or ty) a.entry b.entry result }
{
    narrow_lanes(ty, Simd::from_array(a) | Simd::from_array(b)).to_array()
}

/// The bits of one word and not of the other.
pub fn xor<const W: usize>(ty: IntType, a: [u64; W], b: [u64; W]) -> [u64; W]
    requires { IsGangWidth W }
    ensures { InEachLane W (binary_of Xor ty) a.entry b.entry result }
{
    narrow_lanes(ty, Simd::from_array(a) ^ Simd::from_array(b)).to_array()
}

/// The bits that the words do not have; at `bool`, 1.
pub fn complement<const W: usize>(ty: IntType, a: [u64; W]) -> [u64; W]
    requires { IsGangWidth W }
    ensures { OfEachLane W (unary_of Complement ty) a.entry result }
{
    if is_bool(ty) {
        [1; W]
    } else {
        narrow_lanes(ty, Simd::splat(u64::MAX) - Simd::from_array(a)).to_array()
    }
}

/// The values times 2 to the amounts, wrapped. An amount is taken modulo the width.
pub fn shl<const W: usize>(ty: IntType, a: [u64; W], b: [u64; W]) -> [u64; W]
    requires { IsGangWidth W }
    ensures { InEachLane W (binary_of Shl ty) a.entry b.entry result }
{
    let places = amounts(ty, Simd::from_array(b));
    narrow_lanes(ty, Simd::from_array(a) << places).to_array()
}

/// The values divided by 2 to the amounts, rounded down. An amount is taken modulo the width.
pub fn shr<const W: usize>(ty: IntType, a: [u64; W], b: [u64; W]) -> [u64; W]
    requires { IsGangWidth W }
    ensures { InEachLane W (binary_of Shr ty) a.entry b.entry result }
{
    let places = amounts(ty, Simd::from_array(b));
    let from_zero = biased_lanes(ty, Simd::from_array(a));
    let bias: Simd<u64, W> = Simd::splat(bias(ty));
    narrow_lanes(ty, (from_zero >> places) - (bias >> places)).to_array()
}

/// How many of the lowest bits, as many as the type's width, are 1.
pub fn popcnt<const W: usize>(ty: IntType, a: [u64; W]) -> [u64; W]
    requires { IsGangWidth W }
    ensures { OfEachLane W (bit_count ty) a.entry result }
{
    let mut counts = [0; W];
    for i in 0..W {
        counts[i] = set_bits(ty, a[i]);
    }
    counts
}

fn set_bits(ty: IntType, word: u64) -> u64
    ensures { result ≡ bit_count ty word }
{
    (word & low_bits(ty)).count_ones() as u64
}
