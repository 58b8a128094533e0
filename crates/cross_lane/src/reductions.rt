//! One value from the values of the lanes of a mask.
ghost use Rattle.std.specs.Prelude.{◌≡◌, ℕ, ◌+◌, ◌-◌, ◌%◌, ◌^◌, false, slice_index, if◌then◌else◌};
ghost use Rattle.gang_types.specs.declared.types.IntType.{IntType};
ghost use Rattle.gang_types.specs.Laws.{biased, bias};
ghost use Rattle.gang_types.specs.Lanes.{no_lane, has};
ghost use Rattle.gang_types.specs.Masks.{IsGangWidth, lanes_of};
ghost use Rattle.gang_model.specs.Running.Lanes.{each, truth_word};
ghost use Rattle.gang_model.specs.Running.Library.{reduced, bits_from, sum_type};
ghost use Rattle.gang_model.specs.Types.Tree.{AnyLane, AllLanes, NoLane, ReduceAdd, ReduceMin, ReduceMax, ReduceEqual, PopCountLanes, PackMask};
ghost use Rattle.cross_lane.specs.Calls.{values_in};
ghost use Rattle.cross_lane.specs.Folds.{combined, neutral, fold_below};

use crate::active::filled_outside;
use crate::folds::{Fold, neutral, reduce};
use gang_types::{IntType, Mask, bias, convert};
use std::simd::prelude::*;

// The type of a sum: twice as wide, up to 64 bits, with the same sign.
fn sum_type(ty: IntType) -> IntType
    ensures { result ≡ sum_type ty }
{
    match ty {
        IntType::Bool | IntType::Int32 | IntType::Int64 => IntType::Int64,
        IntType::Int8 => IntType::Int16,
        IntType::Int16 => IntType::Int32,
        IntType::Uint8 => IntType::Uint16,
        IntType::Uint16 => IntType::Uint32,
        IntType::Uint32 | IntType::Uint64 => IntType::Uint64,
    }
}

// The fold of the words of the lanes of the mask.
fn folded<const W: usize>(fold: Fold, mask: Mask, words: Simd<u64, W>) -> u64
    requires { IsGangWidth W }
    ensures { result ≡ fold_below (combined fold) (neutral fold) (λ k. if has (lanes_of W mask) k then slice_index words.entry k else neutral fold) W }
{
    reduce(fold, filled_outside(mask, neutral(fold), words))
}

// The fold of the words of the lanes of the mask, biased so that they order as the values of the type do.
fn folded_by_value<const W: usize>(fold: Fold, ty: IntType, mask: Mask, words: [u64; W]) -> u64
    requires { IsGangWidth W }
    ensures { result ≡ (fold_below (combined fold) (neutral fold) (λ k. if has (lanes_of W mask) k then biased ty (slice_index words.entry k) else neutral fold) W + (2 ^ 64 - bias ty)) % 2 ^ 64 }
{
    let ordered = Simd::from_array(words) + Simd::splat(bias(ty));
    folded(fold, mask, ordered).wrapping_sub(bias(ty))
}

// The word of a `bool`.
fn truth_word(truth: bool) -> u64
    ensures { result ≡ truth_word truth }
{
    if truth { 1 } else { 0 }
}

/// The word of a `bool`: whether the value of a lane of the mask is not 0.
pub fn any<const W: usize>(mask: Mask, words: [u64; W]) -> u64
    requires width { IsGangWidth W }
    requires lane { no_lane (lanes_of W mask) ≡ false }
    ensures { (ty : IntType) → result ≡ reduced AnyLane ty (lanes_of W mask) (values_in (lanes_of W mask) words.entry) }
{
    truth_word(!mask.where_true(words).is_empty::<W>())
}

/// The word of a `bool`: whether the value of each lane of the mask is not 0.
pub fn all<const W: usize>(mask: Mask, words: [u64; W]) -> u64
    requires width { IsGangWidth W }
    requires lane { no_lane (lanes_of W mask) ≡ false }
    ensures { (ty : IntType) → result ≡ reduced AllLanes ty (lanes_of W mask) (values_in (lanes_of W mask) words.entry) }
{
    truth_word(mask.without(mask.where_true(words)).is_empty::<W>())
}

/// The word of a `bool`: whether the value of each lane of the mask is 0.
pub fn none<const W: usize>(mask: Mask, words: [u64; W]) -> u64
    requires width { IsGangWidth W }
    requires lane { no_lane (lanes_of W mask) ≡ false }
    ensures { (ty : IntType) → result ≡ reduced NoLane ty (lanes_of W mask) (values_in (lanes_of W mask) words.entry) }
{
    truth_word(mask.where_true(words).is_empty::<W>())
}

/// The word of a `bool`: whether the lanes of the mask have one value.
pub fn reduce_equal<const W: usize>(mask: Mask, words: [u64; W]) -> u64
    requires width { IsGangWidth W }
    requires lane { no_lane (lanes_of W mask) ≡ false }
    ensures { (ty : IntType) → result ≡ reduced ReduceEqual ty (lanes_of W mask) (values_in (lanes_of W mask) words.entry) }
{
    let first = words[mask.lowest::<W>()];
    let differences = Simd::from_array(words) - Simd::splat(first);
    truth_word(mask.where_true(differences.to_array()).is_empty::<W>())
}

/// The sum of the values of the lanes of the mask: twice as wide as the type, up to 64 bits, and wrapped there.
pub fn reduce_add<const W: usize>(ty: IntType, mask: Mask, words: [u64; W]) -> u64
    requires width { IsGangWidth W }
    requires lane { no_lane (lanes_of W mask) ≡ false }
    ensures { result ≡ reduced ReduceAdd ty (lanes_of W mask) (values_in (lanes_of W mask) words.entry) }
{
    let sum = folded(Fold::Add, mask, Simd::from_array(words));
    convert(ty, sum_type(ty), sum)
}

/// The word of the least value of the lanes of the mask.
pub fn reduce_min<const W: usize>(ty: IntType, mask: Mask, words: [u64; W]) -> u64
    requires width { IsGangWidth W }
    requires lane { no_lane (lanes_of W mask) ≡ false }
    ensures { result ≡ reduced ReduceMin ty (lanes_of W mask) (values_in (lanes_of W mask) words.entry) }
{
    folded_by_value(Fold::Min, ty, mask, words)
}

/// The word of the greatest value of the lanes of the mask.
pub fn reduce_max<const W: usize>(ty: IntType, mask: Mask, words: [u64; W]) -> u64
    requires width { IsGangWidth W }
    requires lane { no_lane (lanes_of W mask) ≡ false }
    ensures { result ≡ reduced ReduceMax ty (lanes_of W mask) (values_in (lanes_of W mask) words.entry) }
{
    folded_by_value(Fold::Max, ty, mask, words)
}

/// How many lanes of the mask have a value that is not 0.
pub fn popcnt_lanes<const W: usize>(mask: Mask, words: [u64; W]) -> u64
    requires width { IsGangWidth W }
    requires lane { no_lane (lanes_of W mask) ≡ false }
    ensures { (ty : IntType) → result ≡ reduced PopCountLanes ty (lanes_of W mask) (values_in (lanes_of W mask) words.entry) }
{
    mask.where_true(words).count::<W>() as u64
}

/// The word with bit k set for each lane k of the mask.
pub fn lanemask<const W: usize>(mask: Mask) -> u64
    requires width { IsGangWidth W }
    requires lane { no_lane (lanes_of W mask) ≡ false }
    ensures { result ≡ bits_from 0 (each (lanes_of W mask) (λ k. 1)) }
{
    mask.word::<W>()
}

/// The word with bit k set for each lane k of the mask whose value is not 0.
pub fn packmask<const W: usize>(mask: Mask, words: [u64; W]) -> u64
    requires width { IsGangWidth W }
    requires lane { no_lane (lanes_of W mask) ≡ false }
    ensures { (ty : IntType) → result ≡ reduced PackMask ty (lanes_of W mask) (values_in (lanes_of W mask) words.entry) }
{
    mask.where_true(words).word::<W>()
}
