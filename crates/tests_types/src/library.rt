//! Library calls and their faults.
use crate::told::{holds, refused};
use gang_model::RefusalNumber;
use gang_types::{IntType, Place, Rate};
use source_answers::SourceFault;
use std::alloc::Global;
use type_check_library::called_value;
use type_check_scopes::Passing;
use type_check_values::Typed;
use typed_tree::{Expr, OneCall, Reduction};

fn at(col: u32) -> Place {
    Place { line: 1, col }
}

/// Arguments of these types and rates, the first of them at column 5 and each later one two columns further.
fn given(alloc: Global, values: &[(IntType, Rate)]) -> Result<Vec<Passing<'static>>, SourceFault> {
    let mut passings = Vec::new(alloc);
    let mut col = 5;
    for (value_type, rate) in values {
        passings.push(Passing::Scalar {
            place: at(col),
            value: Typed::new(alloc, Expr::ProgramIndex, *value_type, *rate)?,
        })?;
        col = col.wrapping_add(2);
    }
    Ok(passings)
}

fn called(alloc: Global, name: &[u8], values: &[(IntType, Rate)]) -> Result<Typed, SourceFault> {
    called_value(alloc, at(1), name, given(alloc, values)?)
}

fn fault_of(alloc: Global, name: &[u8], values: &[(IntType, Rate)]) -> Option<SourceFault> {
    called(alloc, name, values).err()
}

const VARYING: (IntType, Rate) = (IntType::Int32, Rate::Varying);

const PLACES: &[(IntType, Rate)] = &[
    (IntType::Int64, Rate::Varying),
    (IntType::Int8, Rate::Uniform),
];

// Calls with the types of their results, where one is wanted, and their rates.
const CALLED: &[(&str, &[(IntType, Rate)], Option<IntType>, Rate)] = &[
    // Sums are wider.
    (
        "reduce_add",
        &[(IntType::Int8, Rate::Varying)],
        Some(IntType::Int16),
        Rate::Uniform,
    ),
    // Ones of lanes and of bits.
    (
        "popcnt",
        &[(IntType::Bool, Rate::Varying)],
        None,
        Rate::Uniform,
    ),
    (
        "popcnt",
        &[(IntType::Uint8, Rate::Varying)],
        None,
        Rate::Varying,
    ),
    // Values of one lane.
    ("extract", PLACES, Some(IntType::Int64), Rate::Uniform),
    ("broadcast", PLACES, None, Rate::Varying),
];

fn is_kind(made: &Typed, value_type: Option<IntType>, rate: Rate) -> bool {
    let is_typed = match value_type {
        Some(wanted) => made.value_type == wanted,
        None => true,
    };
    is_typed && made.rate == rate
}

#[test]
fn calls_have_types_and_rates(rt: HostRuntime) {
    for &(name, values, value_type, rate) in CALLED {
        let is_so = match called(rt.alloc(), name.as_bytes(), values) {
            Ok(made) => is_kind(&made, value_type, rate),
            Err(_) => false,
        };
        holds(&rt, is_so, name);
    }
}

fn is_sum_of_int8(expr: &Expr) -> bool {
    matches!(
        expr,
        Expr::Reduce {
            function: Reduction::ReduceAdd,
            value_type: IntType::Int8,
            ..
        }
    )
}

fn is_count_of_bits(expr: &Expr) -> bool {
    matches!(
        expr,
        Expr::OfOne {
            function: OneCall::PopCount,
            ..
        }
    )
}

#[test]
fn calls_become_functions_of_the_library(rt: HostRuntime) -> Result<(), SourceFault> {
    let sum = called(rt.alloc(), b"reduce_add", &[(IntType::Int8, Rate::Varying)])?;
    holds(&rt, is_sum_of_int8(&sum.expr), "reduce_add");
    let bits = called(rt.alloc(), b"popcnt", &[(IntType::Uint8, Rate::Varying)])?;
    holds(&rt, is_count_of_bits(&bits.expr), "popcnt");
    Ok(())
}

// Calls with the numbers and columns of their faults.
const REFUSED: &[(&str, &[(IntType, Rate)], RefusalNumber, u32)] = &[
    ("min", &[VARYING], RefusalNumber::S9, 1),
    ("extract", &[VARYING, VARYING], RefusalNumber::S7, 7),
];

#[test]
fn refused_calls(rt: HostRuntime) {
    for &(name, values, number, col) in REFUSED {
        let fault = fault_of(rt.alloc(), name.as_bytes(), values);
        holds(&rt, fault == Some(refused(number, col)), name);
    }
    let three = fault_of(rt.alloc(), b"shuffle", &[VARYING, VARYING, VARYING]);
    holds(&rt, three.is_none(), "shuffle");
}
