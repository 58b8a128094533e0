//! Types of operations and literals, and conversions.
use crate::told::{holds, holds_in_row};
use gang_model::Infix;
use gang_types::{BinaryOp, IntType, Rate, UnaryOp};
use std::alloc::{AllocError, Global};
use type_check_values::{Typed, as_type, chosen_by, infixed, joined, literal_type, prefixed};
use typed_tree::Expr;

fn number(alloc: Global, value_type: IntType, rate: Rate) -> Result<Typed, AllocError> {
    Typed::new(alloc, Expr::Number(1), value_type, rate)
}

/// The type and the rate of a value.
fn kind(made: Result<Typed, AllocError>) -> Result<(IntType, Rate), AllocError> {
    made.map(|made| (made.value_type, made.rate))
}

/// The type and the rate of a sum of a uniform and a varying value.
fn sum(alloc: Global, left: IntType, right: IntType) -> Result<(IntType, Rate), AllocError> {
    let left = number(alloc, left, Rate::Uniform)?;
    let right = number(alloc, right, Rate::Varying)?;
    kind(infixed(alloc, Infix::Op(BinaryOp::Add), left, right))
}

/// Whether a value of the first type is converted when it is given the second.
fn is_converted(alloc: Global, from: IntType, to: IntType) -> Result<bool, AllocError> {
    as_type(alloc, to, number(alloc, from, Rate::Uniform)?).map(|made| matches!(
        &*made,
        Expr::Convert { .. }
    ))
}

// The types of a sum's parts, and its own.
const SUMS: &[(IntType, IntType, IntType)] = &[
    (IntType::Int8, IntType::Int8, IntType::Int8),
    (IntType::Int8, IntType::Uint8, IntType::Uint8),
    (IntType::Int16, IntType::Uint8, IntType::Int16),
    (IntType::Bool, IntType::Bool, IntType::Int32),
    (IntType::Bool, IntType::Int8, IntType::Int8),
];

#[test]
fn a_sum_has_the_joined_type(rt: HostRuntime) {
    for (number, &(left, right, wanted)) in SUMS.iter().enumerate() {
        let found = sum(rt.alloc(), left, right);
        holds_in_row(&rt, found == Ok((wanted, Rate::Varying)), number);
    }
    holds_in_row(
        &rt,
        joined(IntType::Uint32, IntType::Int32) == IntType::Uint32,
        5,
    );
}

// A number, whether it is unsigned and long, and the first type that holds it.
const LITERALS: &[(u64, bool, bool, IntType)] = &[
    (2147483647, false, false, IntType::Int32),
    (2147483648, false, false, IntType::Int64),
    (9223372036854775808, false, false, IntType::Uint64),
    (4294967295, true, false, IntType::Uint32),
    (4294967296, true, false, IntType::Uint64),
    (1, false, true, IntType::Int64),
    (1, true, true, IntType::Uint64),
];

#[test]
fn literals_have_the_first_type_that_holds_them(rt: HostRuntime) {
    for (number, &(value, is_unsigned, is_long, wanted)) in LITERALS.iter().enumerate() {
        let found = literal_type(value, is_unsigned, is_long);
        holds_in_row(&rt, found == wanted, number);
    }
}

#[test]
fn a_value_of_the_type_is_not_converted(rt: HostRuntime) {
    let same = is_converted(rt.alloc(), IntType::Int8, IntType::Int8);
    holds(&rt, same == Ok(false), "int8 to int8");
    let other = is_converted(rt.alloc(), IntType::Bool, IntType::Int8);
    holds(&rt, other == Ok(true), "bool to int8");
}

fn negated(alloc: Global) -> Result<(IntType, Rate), AllocError> {
    let truth = number(alloc, IntType::Bool, Rate::Uniform)?;
    kind(prefixed(alloc, UnaryOp::Negate, truth))
}

fn shifted(alloc: Global) -> Result<(IntType, Rate), AllocError> {
    let byte = number(alloc, IntType::Int8, Rate::Uniform)?;
    let by = number(alloc, IntType::Int64, Rate::Uniform)?;
    kind(infixed(alloc, Infix::Op(BinaryOp::Shl), byte, by))
}

fn both(alloc: Global) -> Result<(IntType, Rate), AllocError> {
    let left = number(alloc, IntType::Int8, Rate::Uniform)?;
    let right = number(alloc, IntType::Int8, Rate::Varying)?;
    kind(infixed(alloc, Infix::AndAlso, left, right))
}

fn chosen(alloc: Global) -> Result<(IntType, Rate), AllocError> {
    let test = number(alloc, IntType::Bool, Rate::Varying)?;
    let first = number(alloc, IntType::Uint8, Rate::Uniform)?;
    let second = number(alloc, IntType::Int16, Rate::Uniform)?;
    kind(chosen_by(alloc, test, first, second))
}

#[test]
fn operators_succeed_with_ample_memory(rt: HostRuntime) {
    let wide = (IntType::Int32, Rate::Uniform);
    holds(&rt, negated(rt.alloc()) == Ok(wide), "negated");
    let small = (IntType::Int8, Rate::Uniform);
    holds(&rt, shifted(rt.alloc()) == Ok(small), "shifted");
    let truth = (IntType::Bool, Rate::Varying);
    holds(&rt, both(rt.alloc()) == Ok(truth), "both");
}

#[test]
fn a_choice_has_the_joined_type_of_its_arms(rt: HostRuntime) {
    let joined = (IntType::Int16, Rate::Varying);
    holds(&rt, chosen(rt.alloc()) == Ok(joined), "a choice");
}
