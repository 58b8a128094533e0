//! Values moved between lanes. Lanes outside the mask are read as 0.
ghost use Rattle.std.specs.Prelude.{◌≡◌, ℕ, ◌+◌, ◌*◌, ◌<◌, ◌++◌, false, length, take, slice_index, pos, ◌+ℤ◌};
ghost use Rattle.gang_types.specs.declared.types.IntType.TheVariants.{Int32};
ghost use Rattle.gang_types.specs.Values.{value_of};
ghost use Rattle.gang_types.specs.Lanes.{no_lane, lowest};
ghost use Rattle.gang_types.specs.Masks.{IsGangWidth, lanes_of};
ghost use Rattle.gang_model.specs.Running.Lanes.{at, each, try_each, in_lane};
ghost use Rattle.gang_model.specs.Running.Library.{lane_value, turned, value_at};
ghost use Rattle.cross_lane.specs.Calls.{values_in, answer_of, inserted, one_answer, spread_answer};

use crate::active::active_words;
use crate::windows::{side_by_side, turned, window};
use gang_types::{FaultName, Mask};
use std::simd::prelude::*;

/// The value of lane `index`: one value for all lanes of the mask.
///
/// # Errors
///
/// `LaneIndex` with the lowest lane of the mask, where `index` is not below `W`: as a word an int32 below 0 is above.
pub fn extract<const W: usize>(
    mask: Mask,
    words: [u64; W],
    index: u64,
) -> Result<u64, (usize, FaultName)>
    requires width { IsGangWidth W }
    requires lane { no_lane (lanes_of W mask) ≡ false }
    ensures value { one_answer result ≡ in_lane (lowest (lanes_of W mask)) (lane_value (values_in (lanes_of W mask) words.entry) index) }
    ensures spread { spread_answer (lanes_of W mask) result ≡ try_each (lanes_of W mask) (λ k. lane_value (values_in (lanes_of W mask) words.entry) index) }
{
    if index < W as u64 {
        let values = active_words(mask, words);
        Ok(values[index as usize])
    } else {
        Err((mask.lowest::<W>(), FaultName::LaneIndex))
    }
}

/// The value of lane `index`, in each lane of the mask, and 0 in the others.
///
/// # Errors
///
/// `LaneIndex` with the lowest lane of the mask, where `index` is not below `W`: as a word an int32 below 0 is above.
pub fn broadcast<const W: usize>(
    mask: Mask,
    words: [u64; W],
    index: u64,
) -> Result<[u64; W], (usize, FaultName)>
    requires width { IsGangWidth W }
    requires lane { no_lane (lanes_of W mask) ≡ false }
    ensures { answer_of result ≡ try_each (lanes_of W mask) (λ k. lane_value (values_in (lanes_of W mask) words.entry) index) }
{
    match extract(mask, words, index) {
        Ok(value) => Ok(active_words(mask, [value; W])),
        Err(fault) => Err(fault),
    }
}

/// The values of the lanes of the mask, with `new` in lane `index` if that lane is in the mask, and 0 in the others.
///
/// # Errors
///
/// `LaneIndex` with the lowest lane of the mask, where `index` is not below `W`: as a word an int32 below 0 is above.
pub fn insert<const W: usize>(
    mask: Mask,
    words: [u64; W],
    index: u64,
    new: u64,
) -> Result<[u64; W], (usize, FaultName)>
    requires width { IsGangWidth W }
    requires lane { no_lane (lanes_of W mask) ≡ false }
    ensures { answer_of result ≡ inserted (lanes_of W mask) (values_in (lanes_of W mask) words.entry) index new }
{
    if index < W as u64 {
        let mut changed = words;
        changed[index as usize] = new;
        Ok(active_words(mask, changed))
    } else {
        Err((mask.lowest::<W>(), FaultName::LaneIndex))
    }
}

/// In each lane of the mask the value of the lane `by` above it, where lane 0 follows the last, and 0 in the others.
/// `by` is the word of an int32.
pub fn rotate<const W: usize>(mask: Mask, words: [u64; W], by: u64) -> [u64; W]
    requires width { IsGangWidth W }
    requires lane { no_lane (lanes_of W mask) ≡ false }
    ensures { result ≡ each (lanes_of W mask) (λ k. at (values_in (lanes_of W mask) words.entry) (turned (lanes_of W mask) (value_of Int32 by) k)) }
{
    let values = Simd::from_array(active_words(mask, words));
    let places = (by % W as u64) as usize;
    active_words(mask, turned(values, places).to_array())
}

/// In each lane of the mask the value of the lane `by` above it, or 0 where there is none, and 0 in the others.
/// `by` is the word of an int32.
pub fn shift<const W: usize>(mask: Mask, words: [u64; W], by: u64) -> [u64; W]
    requires width { IsGangWidth W }
    requires lane { no_lane (lanes_of W mask) ≡ false }
    ensures { result ≡ each (lanes_of W mask) (λ k. value_at (values_in (lanes_of W mask) words.entry) (pos k +ℤ value_of Int32 by)) }
{
    let values = Simd::from_array(active_words(mask, words));
    let from = by.wrapping_add(16).min(32) as usize;
    active_words(mask, window(0, values, from).to_array())
}

/// In each lane of the mask the value of the lane that its place names, and 0 in the others.
///
/// # Errors
///
/// `LaneIndex` with the lowest lane of the mask whose place is not below `W`: as a word an int32 below 0 is above.
pub fn shuffle<const W: usize>(
    mask: Mask,
    words: [u64; W],
    places: [u64; W],
) -> Result<[u64; W], (usize, FaultName)>
    requires width { IsGangWidth W }
    requires lane { no_lane (lanes_of W mask) ≡ false }
    ensures { answer_of result ≡ try_each (lanes_of W mask) (λ k. lane_value (values_in (lanes_of W mask) words.entry) (at places.entry k)) }
{
    let values = active_words(mask, words);
    picked(mask, &values, places)
}

/// In each lane of the mask the value that its place names among those of `first` and, from place `W` on, of `second`,
/// and 0 in the others.
///
/// # Errors
///
/// `LaneIndex` with the lowest lane of the mask whose place is not below `2 * W`: as a word an int32 below 0 is above.
pub fn shuffle_two<const W: usize>(
    mask: Mask,
    first: [u64; W],
    second: [u64; W],
    places: [u64; W],
) -> Result<[u64; W], (usize, FaultName)>
    requires width { IsGangWidth W }
    requires lane { no_lane (lanes_of W mask) ≡ false }
    ensures { answer_of result ≡ try_each (lanes_of W mask) (λ k. lane_value (values_in (lanes_of W mask) first.entry ++ values_in (lanes_of W mask) second.entry) (at places.entry k)) }
{
    let low = Simd::from_array(active_words(mask, first));
    let high = Simd::from_array(active_words(mask, second));
    let row = side_by_side(low, high);
    picked(mask, &row[..2 * W], places)
}

// In each lane of the mask the word that its place names, and 0 in the others.
fn picked<const W: usize>(
    mask: Mask,
    row: &[u64],
    places: [u64; W],
) -> Result<[u64; W], (usize, FaultName)>
    requires { IsGangWidth W }
    ensures { answer_of result ≡ try_each (lanes_of W mask) (λ k. lane_value row.now (at places.entry k)) }
{
    let mut picked = [0; W];
    for lane in 0..W {
        if mask.has::<W>(lane) {
            if places[lane] >= row.len() as u64 {
                return Err((lane, FaultName::LaneIndex));
            }
            picked[lane] = row[places[lane] as usize];
        }
    }
    Ok(picked)
}
