//! Expressions over variables of all types on a gang of 4 lanes, with values from arithmetic by hand.
use crate::placed::{type_of, words_of};
use crate::store::Memory;
use crate::told::holds;
use expression_runs::Stop;
use gang_types::{FaultName, IntType, Rate, wrap};
use std::alloc::Global;

/// A variable of each type, each in scope at the closing brace.
const SOURCE: &str =
    "export void go() { bool b = true; int8 i8 = 0; uint8 u8 = 0; int16 i16 = 0; uint16 u16 = 0; \
    int32 i32 = 0; uint32 u32 = 0; int64 i64 = 0; uint64 u64 = 0; uniform int8 one = 1; }";

/// The step at the closing brace.
const CLOSING: usize = 10;

/// The values of the variables.
const VALUES: [(IntType, [i128; 4]); 10] = [
    (IntType::Bool, [1, 0, 1, 0]),
    (IntType::Int8, [-128, 127, -1, 5]),
    (IntType::Uint8, [255, 0, 1, 200]),
    (IntType::Int16, [-32768, 32767, -1, 7]),
    (IntType::Uint16, [65535, 0, 1, 7]),
    (IntType::Int32, [-2147483648, 2147483647, -1, 9]),
    (IntType::Uint32, [4294967295, 0, 1, 9]),
    (
        IntType::Int64,
        [-9223372036854775808, 9223372036854775807, -1, 11],
    ),
    (IntType::Uint64, [18446744073709551615, 0, 1, 11]),
    (IntType::Int8, [-3, -3, -3, -3]),
];

fn wrapped(value_type: IntType, values: [i128; 4]) -> [u64; 4] {
    values.map(|value| wrap(value_type, value))
}

fn locals() -> [[u64; 4]; 10] {
    VALUES.map(|(value_type, values)| wrapped(value_type, values))
}

/// The type, the rate and the values of expressions.
const ROWS: &[(&str, IntType, Rate, [i128; 4])] = &[
    ("b", IntType::Bool, Rate::Varying, [1, 0, 1, 0]),
    ("i8", IntType::Int8, Rate::Varying, [-128, 127, -1, 5]),
    ("u8", IntType::Uint8, Rate::Varying, [255, 0, 1, 200]),
    ("i16", IntType::Int16, Rate::Varying, [-32768, 32767, -1, 7]),
    ("u16", IntType::Uint16, Rate::Varying, [65535, 0, 1, 7]),
    (
        "i32",
        IntType::Int32,
        Rate::Varying,
        [-2147483648, 2147483647, -1, 9],
    ),
    ("u32", IntType::Uint32, Rate::Varying, [4294967295, 0, 1, 9]),
    (
        "i64",
        IntType::Int64,
        Rate::Varying,
        [-9223372036854775808, 9223372036854775807, -1, 11],
    ),
    (
        "u64",
        IntType::Uint64,
        Rate::Varying,
        [18446744073709551615, 0, 1, 11],
    ),
    ("one", IntType::Int8, Rate::Uniform, [-3, -3, -3, -3]),
    ("-i8", IntType::Int8, Rate::Varying, [-128, -127, 1, -5]),
    ("u8 + 1", IntType::Int32, Rate::Varying, [256, 1, 2, 201]),
    (
        "i32 - 1",
        IntType::Int32,
        Rate::Varying,
        [2147483647, 2147483646, -2, 8],
    ),
    ("u32 + 1", IntType::Uint32, Rate::Varying, [0, 1, 2, 10]),
    (
        "i64 + 1",
        IntType::Int64,
        Rate::Varying,
        [-9223372036854775807, -9223372036854775808, 0, 12],
    ),
    ("u64 + 1", IntType::Uint64, Rate::Varying, [0, 1, 2, 12]),
    ("i16 < 0", IntType::Bool, Rate::Varying, [1, 0, 1, 0]),
    ("!b", IntType::Bool, Rate::Varying, [0, 1, 0, 1]),
    (
        "b ? i32 : 3",
        IntType::Int32,
        Rate::Varying,
        [-2147483648, 3, -1, 3],
    ),
    ("(int8)u8", IntType::Int8, Rate::Varying, [-1, 0, 1, -56]),
    ("one > -4", IntType::Bool, Rate::Uniform, [1, 1, 1, 1]),
    ("any(b)", IntType::Bool, Rate::Uniform, [1, 1, 1, 1]),
    (
        "all(b || i8 > 0)",
        IntType::Bool,
        Rate::Uniform,
        [1, 1, 1, 1],
    ),
    (
        "reduce_add(i8)",
        IntType::Int16,
        Rate::Uniform,
        [3, 3, 3, 3],
    ),
    ("programIndex", IntType::Int32, Rate::Varying, [0, 1, 2, 3]),
    ("programCount", IntType::Int32, Rate::Uniform, [4, 4, 4, 4]),
];

#[test]
fn expressions_have_types_and_rates(rt: HostRuntime) {
    for &(text, value_type, rate, _) in ROWS {
        let found = type_of(rt.alloc(), SOURCE, CLOSING, text);
        holds(&rt, found == Ok((value_type, rate)), text);
    }
}

/// Whether the expression of a text has these values in all lanes.
fn has_values(alloc: Global, text: &str, value_type: IntType, values: [i128; 4]) -> bool {
    let memory = Memory {
        locals: &locals(),
        arrays: &[],
    };
    match words_of(alloc, SOURCE, CLOSING, text, &memory, 0b1111) {
        Ok(Ok(words)) => words == wrapped(value_type, values),
        Ok(Err(_)) | Err(_) => false,
    }
}

#[test]
fn expressions_have_values(rt: HostRuntime) {
    for &(text, value_type, _, values) in ROWS {
        holds(&rt, has_values(rt.alloc(), text, value_type, values), text);
    }
}

#[test]
fn the_lowest_lane_faults(rt: HostRuntime) {
    let memory = Memory {
        locals: &locals(),
        arrays: &[],
    };
    let found = words_of(rt.alloc(), SOURCE, CLOSING, "5 / u16", &memory, 0b1111);
    let fault = Err(Stop::Fault((1, FaultName::DivideByZero)));
    holds(&rt, found == Ok(fault), "5 / u16");
}
