//! Joined types, and the types of literals and operations.
ghost use Rattle.std.specs.Prelude.{◌≡◌};
ghost use Rattle.gang_model.specs.Types.Conversions as model;
ghost use Rattle.gang_model.specs.Types.Signatures as signatures;

use gang_types::{BinaryOp, IntType, Rate, is_bool, is_signed, width};

/// The joined type of two operands: the wider one, at equal width the unsigned one; of bool and another type the other.
pub fn joined(left: IntType, right: IntType) -> IntType
    ensures { result ≡ model.joined left right }
{
    if width(left) < width(right) {
        right
    } else if width(right) < width(left) {
        left
    } else if is_signed(left) {
        right
    } else {
        left
    }
}

/// Where an integer type is asked, bool counts as int32.
pub fn promoted(value_type: IntType) -> IntType
    ensures { result ≡ model.promoted value_type }
{
    if is_bool(value_type) {
        IntType::Int32
    } else {
        value_type
    }
}

/// The type of a declaration; `void` counts as int32.
pub fn declared_type(value_type: Option<IntType>) -> IntType
    ensures { result ≡ signatures.declared_type value_type }
{
    value_type.unwrap_or(IntType::Int32)
}

/// The rate of a declaration, which is varying where none is written.
pub fn declared_rate(rate: Option<Rate>) -> Rate
    ensures { result ≡ signatures.declared_rate rate }
{
    rate.unwrap_or(Rate::Varying)
}

/// The type of a number: the first of int32, int64, unsigned int64 that holds it; with the suffix u the first unsigned one from
/// 32 bits on, with l the first from 64 bits on.
pub fn literal_type(value: u64, is_unsigned: bool, is_long: bool) -> IntType
    ensures { result ≡ model.literal_type value is_unsigned is_long }
{
    match (is_unsigned, is_long) {
        (false, false) if value < 1 << 31 => IntType::Int32,
        (false, _) if value < 1 << 63 => IntType::Int64,
        (true, false) if value < 1 << 32 => IntType::Uint32,
        _ => IntType::Uint64,
    }
}

/// The type that an operation is made in: a shift in its left operand's, where bool counts as int32; `&`, `|`, `^`, `==` and `!=`
/// in the joined type; the others there too, where bool counts as int32.
pub fn operation_type(operator: BinaryOp, left: IntType, right: IntType) -> IntType
    ensures { result ≡ model.operation_type operator left right }
{
    match operator {
        BinaryOp::Shl | BinaryOp::Shr => promoted(left),
        BinaryOp::And | BinaryOp::Or | BinaryOp::Xor | BinaryOp::Equal | BinaryOp::NotEqual => {
            joined(left, right)
        }
        _ => promoted(joined(left, right)),
    }
}

/// The type of an operation's value: a comparison gives bool, another operation the type that it is made in.
pub(crate) fn given_type(operator: BinaryOp, made_in: IntType) -> IntType
    ensures { result ≡ model.given_type operator made_in }
{
    match operator {
        BinaryOp::Equal
        | BinaryOp::NotEqual
        | BinaryOp::Less
        | BinaryOp::LessEqual
        | BinaryOp::Greater
        | BinaryOp::GreaterEqual => IntType::Bool,
        _ => made_in,
    }
}
