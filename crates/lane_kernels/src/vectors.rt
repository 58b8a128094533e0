//! What the operations share on vectors: narrowing, the bias, amounts of shifts, and tests.
ghost use Rattle.std.specs.Prelude.{◌≡◌, ℕ, ◌+◌, ◌-◌, ◌*◌, ◌/◌, ◌%◌, ◌^◌, ◌<◌, ◌≤◌, map, length, slice_index, nat_eq, nat_lt, if◌then◌else◌};
ghost use Rattle.gang_types.specs.Values.{amount};
ghost use Rattle.gang_types.specs.Laws.{narrow_word, biased};
ghost use Rattle.gang_types.specs.Masks.{IsGangWidth};

use gang_types::{IntType, bias, half, is_bool, low_bits, width};
use std::simd::prelude::*;

// What is kept of each word at a type.
pub(crate) fn narrow_lanes<const W: usize>(ty: IntType, words: Simd<u64, W>) -> Simd<u64, W>
    requires { IsGangWidth W }
    ensures { result ≡ map (narrow_word ty) words.entry }
{
    if is_bool(ty) {
        words
            .simd_ne(Simd::splat(0))
            .select(Simd::splat(1u64), Simd::splat(0))
    } else {
        let half: Simd<u64, W> = Simd::splat(half(ty));
        ((words + half) & Simd::splat(low_bits(ty))) - half
    }
}

// Words that order as the values of the type do.
pub(crate) fn biased_lanes<const W: usize>(ty: IntType, words: Simd<u64, W>) -> Simd<u64, W>
    requires { IsGangWidth W }
    ensures { result ≡ map (biased ty) words.entry }
{
    words + Simd::splat(bias(ty))
}

// The amounts of shifts, below the type's width.
pub(crate) fn amounts<const W: usize>(ty: IntType, words: Simd<u64, W>) -> Simd<u64, W>
    requires { IsGangWidth W }
    ensures { result ≡ map (amount ty) words.entry }
{
    words & Simd::splat(width(ty) as u64 - 1)
}

// One word where the lane of the first vector is less, and another where it is not.
pub(crate) fn where_less<const W: usize>(
    a: Simd<u64, W>,
    b: Simd<u64, W>,
    yes: u64,
    no: u64,
) -> [u64; W]
    requires { IsGangWidth W }
    ensures { (i : ℕ) → i < W → slice_index result i ≡ (if nat_lt (slice_index a.entry i) (slice_index b.entry i) then yes else no) }
{
    a.simd_lt(b)
        .select(Simd::splat(yes), Simd::splat(no))
        .to_array()
}

// The word of one vector where the lane of `a` is less than that of `b`, and of another where it is not.
pub(crate) fn choose_where_less<const W: usize>(
    a: Simd<u64, W>,
    b: Simd<u64, W>,
    first: Simd<u64, W>,
    other: Simd<u64, W>,
) -> [u64; W]
    requires { IsGangWidth W }
    ensures { (i : ℕ) → i < W → slice_index result i ≡ (if nat_lt (slice_index a.entry i) (slice_index b.entry i) then slice_index first.entry i else slice_index other.entry i) }
{
    a.simd_lt(b).select(first, other).to_array()
}

// One word where the lanes are equal, and another where they are not.
pub(crate) fn where_equal<const W: usize>(
    a: Simd<u64, W>,
    b: Simd<u64, W>,
    yes: u64,
    no: u64,
) -> [u64; W]
    requires { IsGangWidth W }
    ensures { (i : ℕ) → i < W → slice_index result i ≡ (if nat_eq (slice_index a.entry i) (slice_index b.entry i) then yes else no) }
{
    a.simd_eq(b)
        .select(Simd::splat(yes), Simd::splat(no))
        .to_array()
}
