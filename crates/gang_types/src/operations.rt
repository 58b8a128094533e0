//! The operations on words.
ghost use Rattle.std.specs.Prelude.{◌≡◌, ℕ, ◌+◌, ◌-◌, ◌*◌, ◌/◌, ◌%◌, ◌^◌, ◌<◌, ◌≤◌, pos, if◌then◌else◌, IfOk};
ghost use Rattle.gang_types.specs.Values.{width, value_of, amount, binary_of, binary_result, result_type, unary_of, unary_type};
ghost use Rattle.gang_types.specs.Ranges.{InType};
ghost use Rattle.gang_types.specs.declared.operators.BinaryOp.TheVariants.{Add, Sub, Mul, Div, Rem, And, Or, Xor, Shl, Shr, Less, LessEqual, Greater, GreaterEqual, Equal, NotEqual};
ghost use Rattle.gang_types.specs.Laws.{bias, biased};

use crate::faults::FaultName;
use crate::operators::{BinaryOp, UnaryOp};
use crate::types::IntType;
use crate::values::{bias, is_bool, narrow, truth, value, width, wrapped_word};

fn amount(ty: IntType, word: u64) -> u32
    ensures value { result ≡ amount ty word }
    ensures below { result ≤ 63 }
{
    (word % width(ty) as u64) as u32
}

fn biased(ty: IntType, word: u64) -> u64
    ensures { result ≡ biased ty word }
{
    word.wrapping_add(bias(ty))
}

/// The value of an operation on one word. The result's type is `bool` for `Not`, and `ty` for the others.
pub fn unary(op: UnaryOp, ty: IntType, a: u64) -> u64
    ensures value { result ≡ unary_of op ty a }
    ensures of_type { InType (unary_type op ty) (value_of (unary_type op ty) result) }
{
    unary_word(op, ty, a)
}

#[tactic(auto, using(crate::specs::Laws::word_of_truth, crate::specs::Laws::convert_any, crate::specs::UnaryLaws::negate_is_sub, crate::specs::UnaryLaws::complement_any))]
fn unary_word(op: UnaryOp, ty: IntType, a: u64) -> u64
    ensures { result ≡ unary_of op ty a }
{
    match op {
        UnaryOp::Negate => sub(ty, 0, a),
        UnaryOp::Plus => narrow(ty, a),
        UnaryOp::Not => truth(a == 0),
        UnaryOp::Complement => { if is_bool(ty) { 1 } else { narrow(ty, !a) } }
    }
}

/// The sum, wrapped.
#[tactic(auto, using(crate::specs::Laws::add_bool, crate::specs::Laws::add_integer))]
pub fn add(ty: IntType, a: u64, b: u64) -> u64
    ensures { result ≡ binary_of Add ty a b }
{
    if is_bool(ty) {
        narrow(ty, a | b)
    } else {
        narrow(ty, a.wrapping_add(b))
    }
}

/// The difference, wrapped.
#[tactic(auto, using(crate::specs::Laws::sub_any))]
pub fn sub(ty: IntType, a: u64, b: u64) -> u64
    ensures { result ≡ binary_of Sub ty a b }
{
    narrow(ty, a.wrapping_sub(b))
}

/// The product, wrapped.
#[tactic(auto, using(crate::specs::Laws::mul_bool, crate::specs::Laws::mul_integer))]
pub fn mul(ty: IntType, a: u64, b: u64) -> u64
    ensures { result ≡ binary_of Mul ty a b }
{
    if is_bool(ty) {
        narrow(ty, a.min(b))
    } else {
        narrow(ty, a.wrapping_mul(b))
    }
}

/// The quotient, truncated toward 0 and wrapped: the least value by -1 is itself.
pub fn div(ty: IntType, a: u64, b: u64) -> u64
    requires { 0 < b }
    ensures { result ≡ binary_of Div ty a b }
{
    wrapped_word(ty, value(ty, a) / value(ty, b))
}

/// The remainder, with the dividend's sign.
pub fn rem(ty: IntType, a: u64, b: u64) -> u64
    requires { 0 < b }
    ensures { result ≡ binary_of Rem ty a b }
{
    wrapped_word(ty, value(ty, a) % value(ty, b))
}

/// The bits of both words.
#[tactic(auto, using(crate::specs::Laws::and_any))]
pub fn and(ty: IntType, a: u64, b: u64) -> u64
    ensures { result ≡ binary_of And ty a b }
{
    narrow(ty, a & b)
}

/// The bits of either word.
#[tactic(auto, using(crate::specs::Laws::or_any))]
pub fn or(ty: IntType, a: u64, b: u64) -> u64
    ensures { result ≡ binary_of Or ty a b }
{
    narrow(ty, a | b)
}

/// The bits of one word and not of the other.
#[tactic(auto, using(crate::specs::Laws::xor_any))]
pub fn xor(ty: IntType, a: u64, b: u64) -> u64
    ensures { result ≡ binary_of Xor ty a b }
{
    narrow(ty, a ^ b)
}

/// The value times 2 to the amount, wrapped. The amount is taken modulo the width.
#[tactic(auto, using(crate::specs::Laws::shl_any))]
pub fn shl(ty: IntType, a: u64, b: u64) -> u64
    ensures { result ≡ binary_of Shl ty a b }
{
    narrow(ty, a << amount(ty, b))
}

/// The value divided by 2 to the amount, rounded down. The amount is taken modulo the width.
#[tactic(auto, using(crate::specs::Laws::shr_any))]
pub fn shr(ty: IntType, a: u64, b: u64) -> u64
    ensures { result ≡ binary_of Shr ty a b }
{
    let places = amount(ty, b);
    narrow(
        ty,
        (biased(ty, a) >> places).wrapping_sub(bias(ty) >> places),
    )
}

/// 1 where the first value is below the second, and else 0.
#[tactic(auto, using(crate::specs::Laws::less_any))]
pub fn less(ty: IntType, a: u64, b: u64) -> u64
    ensures { result ≡ binary_of Less ty a b }
{
    truth(biased(ty, a) < biased(ty, b))
}

/// 1 where the first value is not above the second, and else 0.
#[tactic(auto, using(crate::specs::Laws::less_equal_any))]
pub fn less_equal(ty: IntType, a: u64, b: u64) -> u64
    ensures { result ≡ binary_of LessEqual ty a b }
{
    truth(biased(ty, a) <= biased(ty, b))
}

/// 1 where the two words are equal, and else 0.
#[tactic(auto, using(crate::specs::Laws::equal_any))]
pub fn equal(ty: IntType, a: u64, b: u64) -> u64
    ensures { result ≡ binary_of Equal ty a b }
{
    truth(a == b)
}

/// 1 where the two words differ, and else 0.
#[tactic(auto, using(crate::specs::Laws::not_equal_any))]
pub fn not_equal(ty: IntType, a: u64, b: u64) -> u64
    ensures { result ≡ binary_of NotEqual ty a b }
{
    truth(a != b)
}

/// The value of an operation on two words of one type. The result's type is `bool` for a comparison,
/// and `ty` for the others.
///
/// # Errors
///
/// `DivideByZero` for a division or a remainder where the second word is 0.
pub fn binary(op: BinaryOp, ty: IntType, a: u64, b: u64) -> Result<u64, FaultName>
    ensures value { result ≡ binary_result op ty a b }
    ensures of_type { IfOk result (λ word. InType (result_type op ty) (value_of (result_type op ty) word)) }
{
    binary_word(op, ty, a, b)
}

#[tactic(auto, using(crate::specs::Laws::greater_is_less, crate::specs::Laws::greater_equal_is_less_equal))]
fn binary_word(op: BinaryOp, ty: IntType, a: u64, b: u64) -> Result<u64, FaultName>
    ensures { result ≡ binary_result op ty a b }
{
    match op {
        BinaryOp::Add => Ok(add(ty, a, b)),
        BinaryOp::Sub => Ok(sub(ty, a, b)),
        BinaryOp::Mul => Ok(mul(ty, a, b)),
        BinaryOp::Div => {
            if b == 0 {
                return Err(FaultName::DivideByZero);
            }
            Ok(div(ty, a, b))
        }
        BinaryOp::Rem => {
            if b == 0 {
                return Err(FaultName::DivideByZero);
            }
            Ok(rem(ty, a, b))
        }
        BinaryOp::And => Ok(and(ty, a, b)),
        BinaryOp::Or => Ok(or(ty, a, b)),
        BinaryOp::Xor => Ok(xor(ty, a, b)),
        BinaryOp::Shl => Ok(shl(ty, a, b)),
        BinaryOp::Shr => Ok(shr(ty, a, b)),
        BinaryOp::Less => Ok(less(ty, a, b)),
        BinaryOp::LessEqual => Ok(less_equal(ty, a, b)),
        BinaryOp::Greater => Ok(less(ty, b, a)),
        BinaryOp::GreaterEqual => Ok(less_equal(ty, b, a)),
        BinaryOp::Equal => Ok(equal(ty, a, b)),
        BinaryOp::NotEqual => Ok(not_equal(ty, a, b)),
    }
}
