//! Folds of the lanes' words, in steps that join lanes twice as far apart each time.
ghost use Rattle.std.specs.Prelude.{◌≡◌, ℕ, ◌+◌, ◌-◌, ◌<◌, ◌≤◌, length, slice_index, nat_le, if◌then◌else◌};
ghost use Rattle.gang_types.specs.Masks.{IsGangWidth};
ghost use Rattle.cross_lane.specs.Folds.{combined, neutral, fold_below};

use crate::windows::window;
use std::simd::prelude::*;

/// How two words become one.
#[derive(Clone, Copy, Debug, PartialEq, Eq, Drop)]
pub(crate) enum Fold {
    Add,
    And,
    Or,
    Min,
    Max,
}

pub(crate) fn neutral(fold: Fold) -> u64
    ensures { result ≡ neutral fold }
{
    match fold {
        Fold::Add | Fold::Or | Fold::Max => 0,
        Fold::And | Fold::Min => u64::MAX,
    }
}

fn combine<const W: usize>(fold: Fold, x: Simd<u64, W>, y: Simd<u64, W>) -> Simd<u64, W>
    requires { IsGangWidth W }
    ensures { (i : ℕ) → i < W → slice_index result i ≡ combined fold (slice_index x.entry i) (slice_index y.entry i) }
{
    match fold {
        Fold::Add => x + y,
        Fold::And => x & y,
        Fold::Or => x | y,
        Fold::Min => y.simd_min(x),
        Fold::Max => x.simd_lt(y).select(y, x),
    }
}

// Each lane, with the one `by` below it before it.
fn doubled<const W: usize>(fold: Fold, words: Simd<u64, W>, by: usize) -> Simd<u64, W>
    requires width { IsGangWidth W }
    requires near { by ≤ 16 }
    ensures { (i : ℕ) → i < W → slice_index result i ≡ combined fold (if nat_le by i then slice_index words.entry (i - by) else neutral fold) (slice_index words.entry i) }
{
    combine(fold, window(neutral(fold), words, 16 - by), words)
}

// In each lane the fold up to that lane, in as many steps of doubling as W asks.
fn inclusive_scan<const W: usize>(fold: Fold, words: Simd<u64, W>) -> Simd<u64, W>
    requires { IsGangWidth W }
    ensures { (i : ℕ) → i < W → slice_index result i ≡ fold_below (combined fold) (neutral fold) (slice_index words.entry) (i + 1) }
{
    let mut folds = doubled(fold, doubled(fold, words, 1), 2);
    if W > 4 {
        folds = doubled(fold, folds, 4);
    }
    if W > 8 {
        folds = doubled(fold, folds, 8);
    }
    folds
}

// In each lane the fold of the lanes below it.
pub(crate) fn exclusive_scan<const W: usize>(fold: Fold, words: Simd<u64, W>) -> Simd<u64, W>
    requires { IsGangWidth W }
    ensures { (i : ℕ) → i < W → slice_index result i ≡ fold_below (combined fold) (neutral fold) (slice_index words.entry) i }
{
    window(neutral(fold), inclusive_scan(fold, words), 15)
}

// The fold of all lanes.
pub(crate) fn reduce<const W: usize>(fold: Fold, words: Simd<u64, W>) -> u64
    requires { IsGangWidth W }
    ensures { result ≡ fold_below (combined fold) (neutral fold) (slice_index words.entry) W }
{
    let folds = inclusive_scan(fold, words).to_array();
    folds[W - 1]
}
