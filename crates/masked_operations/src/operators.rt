//! Operators, conversions and the library's functions of one lane.
ghost use Rattle.std.specs.Prelude.{◌≡◌, ℕ, false};
ghost use Rattle.gang_types.specs.Values.{binary_of, binary_result, converted, divides, unary_of};
ghost use Rattle.gang_types.specs.Masks.{IsGangWidth, lanes_of};
ghost use Rattle.gang_model.specs.Running.Lanes.{at, each, try_each};
ghost use Rattle.lane_kernels.specs.Lanes.{InEachLane, OfEachLane};
ghost use Rattle.cross_lane.specs.Calls.{answer_of};

use crate::words::only;
use gang_types::{BinaryOp, FaultName, IntType, Mask, UnaryOp};
use lane_kernels as kernels;

/// The values of an operation on one word.
pub fn unary<const W: usize>(
    mask: Mask,
    operator: UnaryOp,
    value_type: IntType,
    words: [u64; W],
) -> [u64; W]
    requires { IsGangWidth W }
    ensures { result ≡ each (lanes_of W mask) (λ k. unary_of operator value_type (at words.entry k)) }
{
    only(mask, unary_words(operator, value_type, words))
}

fn unary_words<const W: usize>(operator: UnaryOp, value_type: IntType, words: [u64; W]) -> [u64; W]
    requires { IsGangWidth W }
    ensures { OfEachLane W (unary_of operator value_type) words.entry result }
{
    match operator {
        UnaryOp::Negate => kernels::negate(value_type, words),
        UnaryOp::Plus => kernels::convert(value_type, value_type, words),
        UnaryOp::Not => kernels::not(value_type, words),
        UnaryOp::Complement => kernels::complement(value_type, words),
    }
}

/// The values of words of one type, wrapped into another.
pub fn convert<const W: usize>(mask: Mask, from: IntType, to: IntType, words: [u64; W]) -> [u64; W]
    requires { IsGangWidth W }
    ensures { result ≡ each (lanes_of W mask) (λ k. converted from to (at words.entry k)) }
{
    only(mask, kernels::convert(from, to, words))
}

/// The values of an operation on two words of one type.
///
/// # Errors
///
/// `DivideByZero` for a division or a remainder, with the lowest lane of the mask whose divisor is 0, where there is one.
pub fn binary<const W: usize>(
    mask: Mask,
    operator: BinaryOp,
    value_type: IntType,
    left: [u64; W],
    right: [u64; W],
) -> Result<[u64; W], (usize, FaultName)>
    requires { IsGangWidth W }
    ensures { answer_of result ≡ try_each (lanes_of W mask) (λ k. binary_result operator value_type (at left.entry k) (at right.entry k)) }
{
    match operator {
        BinaryOp::Div => {
            let quotients = kernels::divide(value_type, mask, left, right)?;
            Ok(quotients)
        }
        BinaryOp::Rem => {
            let remainders = kernels::remainder(value_type, mask, left, right)?;
            Ok(remainders)
        }
        _ => Ok(only(mask, total_words(operator, value_type, left, right))),
    }
}

// An operation that has a value for all words.
fn total_words<const W: usize>(
    operator: BinaryOp,
    value_type: IntType,
    left: [u64; W],
    right: [u64; W],
) -> [u64; W]
    requires width { IsGangWidth W }
    requires total { divides operator ≡ false }
    ensures { InEachLane W (binary_of operator value_type) left.entry right.entry result }
{
    match operator {
        BinaryOp::Add => kernels::add(value_type, left, right),
        BinaryOp::Sub => kernels::sub(value_type, left, right),
        BinaryOp::Mul => kernels::mul(value_type, left, right),
        BinaryOp::Div | BinaryOp::Rem => unreachable!(),
        BinaryOp::And => kernels::and(value_type, left, right),
        BinaryOp::Or => kernels::or(value_type, left, right),
        BinaryOp::Xor => kernels::xor(value_type, left, right),
        BinaryOp::Shl => kernels::shl(value_type, left, right),
        BinaryOp::Shr => kernels::shr(value_type, left, right),
        BinaryOp::Less => kernels::less(value_type, left, right),
        BinaryOp::LessEqual => kernels::less_equal(value_type, left, right),
        BinaryOp::Greater => kernels::greater(value_type, left, right),
        BinaryOp::GreaterEqual => kernels::greater_equal(value_type, left, right),
        BinaryOp::Equal => kernels::equal(value_type, left, right),
        BinaryOp::NotEqual => kernels::not_equal(value_type, left, right),
    }
}
