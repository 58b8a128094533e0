//! Scans: in each lane of a mask the fold of the lanes of the mask below it.
ghost use Rattle.std.specs.Prelude.{◌≡◌, ℕ, ◌<◌, false, slice_index, if◌then◌else◌};
ghost use Rattle.gang_types.specs.declared.types.IntType.{IntType};
ghost use Rattle.gang_types.specs.Lanes.{no_lane, has};
ghost use Rattle.gang_types.specs.Masks.{IsGangWidth, lanes_of};
ghost use Rattle.gang_model.specs.Running.Lanes.{each};
ghost use Rattle.gang_model.specs.Running.Library.{scanned, before_lane};
ghost use Rattle.gang_model.specs.Types.Tree.{ScanAdd, ScanAnd, ScanOr};
ghost use Rattle.cross_lane.specs.Calls.{values_in};
ghost use Rattle.cross_lane.specs.Folds.{combined, neutral, fold_below};

use crate::active::{active_words, filled_outside};
use crate::folds::{Fold, exclusive_scan, neutral};
use gang_types::{IntType, Mask, is_bool, wrap};
use lane_kernels::convert;
use std::simd::prelude::*;

// In each lane the fold of the words of the lanes of the mask below it.
fn folds_before<const W: usize>(fold: Fold, mask: Mask, words: [u64; W]) -> Simd<u64, W>
    requires { IsGangWidth W }
    ensures { (i : ℕ) → i < W → slice_index result i ≡ fold_below (combined fold) (neutral fold) (λ k. if has (lanes_of W mask) k then slice_index words.entry k else neutral fold) i }
{
    exclusive_scan(
        fold,
        filled_outside(mask, neutral(fold), Simd::from_array(words)),
    )
}

/// In each lane of the mask the sum of the values of the lanes of the mask below it, wrapped, and 0 in the others.
pub fn exclusive_scan_add<const W: usize>(ty: IntType, mask: Mask, words: [u64; W]) -> [u64; W]
    requires width { IsGangWidth W }
    requires lane { no_lane (lanes_of W mask) ≡ false }
    ensures { result ≡ each (lanes_of W mask) (λ k. scanned ScanAdd ty (before_lane k (lanes_of W mask) (values_in (lanes_of W mask) words.entry))) }
{
    let fold = if is_bool(ty) { Fold::Or } else { Fold::Add };
    let sums = folds_before(fold, mask, words).to_array();
    active_words(mask, convert(ty, ty, sums))
}

/// In each lane of the mask the bits that all values of the lanes of the mask below it have, and 0 in the others.
pub fn exclusive_scan_and<const W: usize>(ty: IntType, mask: Mask, words: [u64; W]) -> [u64; W]
    requires width { IsGangWidth W }
    requires lane { no_lane (lanes_of W mask) ≡ false }
    ensures { result ≡ each (lanes_of W mask) (λ k. scanned ScanAnd ty (before_lane k (lanes_of W mask) (values_in (lanes_of W mask) words.entry))) }
{
    let common = folds_before(Fold::And, mask, words) & Simd::splat(wrap(ty, -1));
    active_words(mask, common.to_array())
}

/// In each lane of the mask the bits that a value of the lanes of the mask below it has, and 0 in the others.
pub fn exclusive_scan_or<const W: usize>(mask: Mask, words: [u64; W]) -> [u64; W]
    requires width { IsGangWidth W }
    requires lane { no_lane (lanes_of W mask) ≡ false }
    ensures { (ty : IntType) → result ≡ each (lanes_of W mask) (λ k. scanned ScanOr ty (before_lane k (lanes_of W mask) (values_in (lanes_of W mask) words.entry))) }
{
    active_words(mask, folds_before(Fold::Or, mask, words).to_array())
}
