//! What the instructions compute.
ghost use Rattle.std.specs.Prelude.{◌≡◌, ℕ};
ghost use Rattle.gang_types.specs.Masks.{IsGangWidth, lanes_of};
ghost use Rattle.gang_model.specs.Running.Lanes.{each};
ghost use Rattle.gang_model.specs.Running.Library.{bits_from};
ghost use Rattle.gang_model.specs.Running.State.{State, words_in, seen};
ghost use Rattle.cross_lane.specs.Calls.{answer_of};
ghost use Rattle.expression_instructions.specs.Values.{leaf_value, one_value, two_value, three_value};
ghost use Rattle.expression_instructions.specs.declared.code.Leaf.TheVariants.{ProgramCount};

use crate::code::{Leaf, OneOperand, ThreeOperands, TwoOperands};
use crate::library::{inserted, moved, picked, picked_of_two, reduced, scanned};
use crate::words::Words;
use gang_types::{FaultName, Mask};
use masked_operations::{
    absolute, binary, chosen, convert, lane_numbers, max, min, only, popcnt, splat, unary,
};
use typed_tree::{OneCall, TwoCall, Var};

// The word with bit k set for each lane k of the mask.
fn lane_bits<const W: usize>(mask: Mask) -> u64
    requires { IsGangWidth W }
    ensures { result ≡ bits_from 0 (each (lanes_of W mask) (λ k. 1)) }
{
    mask.word::<W>()
}

// The gang's width in each lane of the mask.
fn widths<const W: usize>(mask: Mask) -> [u64; W]
    requires { IsGangWidth W }
    ensures { (state : State) → result ≡ leaf_value ProgramCount (lanes_of W mask) state }
{
    splat(mask, W as u64)
}

fn read<const W: usize, S: Words<W>>(variable: Var, words: &S, mask: Mask) -> [u64; W]
    requires { IsGangWidth W }
    ensures { (state : State) → S.shows words.now state → result ≡ seen variable.rate (lanes_of W mask) (words_in state variable.id) }
{
    only(mask, words.words(variable))
}

/// What needs no operand, in each lane of the mask, and 0 in the others.
pub fn leaf_words<const W: usize, S: Words<W>>(leaf: Leaf, words: &S, mask: Mask) -> [u64; W]
    requires { IsGangWidth W }
    ensures { (state : State) → S.shows words.now state → result ≡ leaf_value leaf (lanes_of W mask) state }
{
    match leaf {
        Leaf::Number(number) => splat(mask, number),
        Leaf::ProgramIndex => lane_numbers(mask),
        Leaf::ProgramCount => widths(mask),
        Leaf::LaneMask => splat(mask, lane_bits::<W>(mask)),
        Leaf::Read(variable) => read(variable, words, mask),
    }
}

/// An operation on one vector, in each lane of the mask, and 0 in the others.
pub fn apply_one<const W: usize>(operation: OneOperand, mask: Mask, operand: [u64; W]) -> [u64; W]
    requires { IsGangWidth W }
    ensures { result ≡ one_value operation (lanes_of W mask) operand.entry }
{
    if mask.is_empty::<W>() {
        return splat(mask, 0);
    }
    match operation {
        OneOperand::Unary(operator, value_type) => unary(mask, operator, value_type, operand),
        OneOperand::Convert(from, to) => convert(mask, from, to, operand),
        OneOperand::OfOne(OneCall::Absolute, value_type) => absolute(mask, value_type, operand),
        OneOperand::OfOne(OneCall::PopCount, value_type) => popcnt(mask, value_type, operand),
        OneOperand::Reduce(function, value_type) => {
            splat(mask, reduced(function, value_type, mask, operand))
        }
        OneOperand::ScanLanes(function, value_type) => {
            scanned(function, value_type, mask, operand)
        }
    }
}

/// An operation on two vectors, in each lane of the mask, and 0 in the others.
///
/// # Errors
///
/// A division by 0, or an index that names no lane, with the lowest lane of the mask that has it.
pub fn apply_two<const W: usize>(
    operation: TwoOperands,
    mask: Mask,
    left: [u64; W],
    right: [u64; W],
) -> Result<[u64; W], (usize, FaultName)>
    requires { IsGangWidth W }
    ensures { answer_of result ≡ two_value operation (lanes_of W mask) left.entry right.entry }
{
    if mask.is_empty::<W>() {
        return Ok(splat(mask, 0));
    }
    match operation {
        TwoOperands::Binary(operator, value_type) => {
            binary(mask, operator, value_type, left, right)
        }
        TwoOperands::OfTwo(TwoCall::Lesser, value_type) => Ok(min(mask, value_type, left, right)),
        TwoOperands::OfTwo(TwoCall::Larger, value_type) => Ok(max(mask, value_type, left, right)),
        TwoOperands::Pick => picked(mask, left, right),
        TwoOperands::Move(how) => Ok(moved(how, mask, left, right)),
    }
}

/// An operation on three vectors, in each lane of the mask, and 0 in the others.
///
/// # Errors
///
/// An index that names no lane, with the lowest lane of the mask that has it.
pub fn apply_three<const W: usize>(
    operation: ThreeOperands,
    mask: Mask,
    first: [u64; W],
    second: [u64; W],
    third: [u64; W],
) -> Result<[u64; W], (usize, FaultName)>
    requires { IsGangWidth W }
    ensures { answer_of result ≡ three_value operation (lanes_of W mask) first.entry second.entry third.entry }
{
    if mask.is_empty::<W>() {
        return Ok(splat(mask, 0));
    }
    match operation {
        ThreeOperands::Select => Ok(chosen(mask, first, second, third)),
        ThreeOperands::Insert => inserted(mask, first, second, third),
        ThreeOperands::PickOfTwo => picked_of_two(mask, first, second, third),
    }
}
