//! The library's calls across lanes, for masks that have a lane.
ghost use Rattle.std.specs.Prelude.{◌≡◌, ◌<◌, ℕ, true, false, MatchOption};
ghost use Rattle.gang_types.specs.Lanes.{has, no_lane};
ghost use Rattle.gang_types.specs.Masks.{IsGangWidth, lanes_of};
ghost use Rattle.gang_model.specs.Running.Lanes.{at, each};
ghost use Rattle.gang_model.specs.Running.Library.{before_lane, reduced, scanned};
ghost use Rattle.typed_tree.specs.Views.{reduction_view, scan_view};
ghost use Rattle.cross_lane.specs.Calls.{answer_of, values_in};
ghost use Rattle.expression_instructions.specs.declared.code.TwoOperands.TheVariants.{Pick};
ghost use Rattle.expression_instructions.specs.declared.code.ThreeOperands.TheVariants.{Insert, PickOfTwo};
ghost use Rattle.expression_instructions.specs.Values.{moved_word, two_value, three_value};

use crate::code::Move;
use cross_lane::{
    all, any, broadcast, exclusive_scan_add, exclusive_scan_and, exclusive_scan_or, none, packmask,
    popcnt_lanes, reduce_add, reduce_equal, reduce_max, reduce_min, rotate, shift, shuffle,
    shuffle_two,
};
use gang_types::{BinaryOp, FaultName, IntType, Mask};
use masked_operations::{binary, chosen, lane_numbers};
use typed_tree::{Reduction, Scan};

// One value from those of the lanes of the mask.
pub(crate) fn reduced<const W: usize>(
    function: Reduction,
    value_type: IntType,
    mask: Mask,
    values: [u64; W],
) -> u64
    requires width { IsGangWidth W }
    requires lane { no_lane (lanes_of W mask) ≡ false }
    ensures { result ≡ reduced (reduction_view function) value_type (lanes_of W mask) (values_in (lanes_of W mask) values.entry) }
{
    match function {
        Reduction::AnyLane => any(mask, values),
        Reduction::AllLanes => all(mask, values),
        Reduction::NoLane => none(mask, values),
        Reduction::ReduceAdd => reduce_add(value_type, mask, values),
        Reduction::ReduceMin => reduce_min(value_type, mask, values),
        Reduction::ReduceMax => reduce_max(value_type, mask, values),
        Reduction::ReduceEqual => reduce_equal(mask, values),
        Reduction::PopCountLanes => popcnt_lanes(mask, values),
        Reduction::PackMask => packmask(mask, values),
    }
}

// In each lane of the mask the fold of the values of those before it.
pub(crate) fn scanned<const W: usize>(
    function: Scan,
    value_type: IntType,
    mask: Mask,
    values: [u64; W],
) -> [u64; W]
    requires width { IsGangWidth W }
    requires lane { no_lane (lanes_of W mask) ≡ false }
    ensures { result ≡ each (lanes_of W mask) (λ k. scanned (scan_view function) value_type (before_lane k (lanes_of W mask) (values_in (lanes_of W mask) values.entry))) }
{
    match function {
        Scan::Add => exclusive_scan_add(value_type, mask, values),
        Scan::And => exclusive_scan_and(value_type, mask, values),
        Scan::Or => exclusive_scan_or(mask, values),
    }
}

// The word that all lanes of the mask have, if they have one. What the language calls uniform has one.
fn one_word<const W: usize>(mask: Mask, words: [u64; W]) -> Option<u64>
    requires width { IsGangWidth W }
    requires lane { no_lane (lanes_of W mask) ≡ false }
    ensures { MatchOption result (Unit {0}) (λ word. (k : ℕ) → k < W → has (lanes_of W mask) k ≡ true → at words.entry k ≡ word) }
{
    let first = words[mask.lowest::<W>()];
    for lane in 0..W {
        if mask.has::<W>(lane) && words[lane] != first {
            return None;
        }
    }
    Some(first)
}

// In each lane of the mask the value of the lane that its place names.
pub(crate) fn picked<const W: usize>(
    mask: Mask,
    values: [u64; W],
    places: [u64; W],
) -> Result<[u64; W], (usize, FaultName)>
    requires width { IsGangWidth W }
    requires lane { no_lane (lanes_of W mask) ≡ false }
    ensures { answer_of result ≡ two_value Pick (lanes_of W mask) values.entry places.entry }
{
    match one_word(mask, places) {
        Some(place) => broadcast(mask, values, place),
        None => shuffle(mask, values, places),
    }
}

// In each lane of the mask the value that its place names among those of both vectors.
pub(crate) fn picked_of_two<const W: usize>(
    mask: Mask,
    values: [u64; W],
    second: [u64; W],
    places: [u64; W],
) -> Result<[u64; W], (usize, FaultName)>
    requires width { IsGangWidth W }
    requires lane { no_lane (lanes_of W mask) ≡ false }
    ensures { answer_of result ≡ three_value PickOfTwo (lanes_of W mask) values.entry second.entry places.entry }
{
    shuffle_two(mask, values, second, places)
}

// The values with the new ones in the lanes of the mask whose index is their own number.
pub(crate) fn inserted<const W: usize>(
    mask: Mask,
    values: [u64; W],
    indices: [u64; W],
    new_values: [u64; W],
) -> Result<[u64; W], (usize, FaultName)>
    requires width { IsGangWidth W }
    requires lane { no_lane (lanes_of W mask) ≡ false }
    ensures { answer_of result ≡ three_value Insert (lanes_of W mask) values.entry indices.entry new_values.entry }
{
    let _lanes_are_there = picked(mask, values, indices)?;
    let own = binary(
        mask,
        BinaryOp::Equal,
        IntType::Uint64,
        lane_numbers(mask),
        indices,
    )?;
    Ok(chosen(mask, own, new_values, values))
}

// The values moved by one amount.
fn moved_by<const W: usize>(how: Move, mask: Mask, values: [u64; W], amount: u64) -> [u64; W]
    requires width { IsGangWidth W }
    requires lane { no_lane (lanes_of W mask) ≡ false }
    ensures { result ≡ each (lanes_of W mask) (λ k. moved_word how (lanes_of W mask) (values_in (lanes_of W mask) values.entry) amount k) }
{
    match how {
        Move::Rotate => rotate(mask, values, amount),
        Move::Shift => shift(mask, values, amount),
    }
}

// The values moved by the amount of each lane.
pub(crate) fn moved<const W: usize>(
    how: Move,
    mask: Mask,
    values: [u64; W],
    amounts: [u64; W],
) -> [u64; W]
    requires width { IsGangWidth W }
    requires lane { no_lane (lanes_of W mask) ≡ false }
    ensures { result ≡ each (lanes_of W mask) (λ k. moved_word how (lanes_of W mask) (values_in (lanes_of W mask) values.entry) (at amounts.entry k) k) }
{
    if let Some(amount) = one_word(mask, amounts) {
        return moved_by(how, mask, values, amount);
    }
    let mut moved = [0; W];
    for lane in 0..W {
        if mask.has::<W>(lane) {
            moved[lane] = moved_to(lane, how, mask, values, amounts[lane]);
        }
    }
    moved
}

// What one lane of the mask gets of the values, moved by an amount.
fn moved_to<const W: usize>(
    lane: usize,
    how: Move,
    mask: Mask,
    values: [u64; W],
    amount: u64,
) -> u64
    requires width { IsGangWidth W }
    requires within { lane < W }
    requires active { has (lanes_of W mask) lane ≡ true }
    requires lane { no_lane (lanes_of W mask) ≡ false }
    ensures { result ≡ moved_word how (lanes_of W mask) (values_in (lanes_of W mask) values.entry) amount lane }
{
    moved_by(how, mask, values, amount)[lane]
}
