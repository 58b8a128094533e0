//! The types of expressions, and where their faults stand. The place of a token is its column in line 1.
use crate::told::{holds, refused};
use gang_model::RefusalNumber;
use gang_types::{IntType, Rate, VarId};
use ispc_lexer::{source_end, tokens};
use ispc_parser_expressions::{arguments as read_arguments, expression as read_expression};
use source_answers::SourceFault;
use source_tree::Expr;
use std::alloc::Global;
use type_check_expressions::{arguments, expression, given_value};
use type_check_scopes::{Declared, TypeScope};

fn variable(number: usize, value_type: IntType, is_array: bool) -> Declared {
    Declared {
        id: VarId::File(number),
        value_type,
        rate: Rate::Uniform,
        is_array,
        is_parameter: false,
        is_constant: false,
        is_void: false,
    }
}

/// A uniform `int8 x` and an array `uniform int16 a[]`, both of the file.
fn scope_with_variables(alloc: Global) -> Result<TypeScope, SourceFault> {
    let mut scope = TypeScope::new(alloc);
    scope.declare_in_file(alloc, b"x", variable(0, IntType::Int8, false))?;
    scope.declare_in_file(alloc, b"a", variable(1, IntType::Int16, true))?;
    Ok(scope)
}

fn read(alloc: Global, source: &[u8]) -> Result<Expr, SourceFault> {
    let tokens = tokens(alloc, source)?;
    read_expression(alloc, 64, &tokens, source_end(source)).map(|(expr, _)| expr)
}

/// The type and the rate of an expression.
fn typed(alloc: Global, source: &[u8]) -> Result<(IntType, Rate), SourceFault> {
    let scope = scope_with_variables(alloc)?;
    let expr = read(alloc, source)?;
    expression(alloc, &expr, &scope).map(|value| (value.value_type, value.rate))
}

/// Whether an expression may be given to a uniform int8.
fn given(alloc: Global, source: &[u8]) -> Result<bool, SourceFault> {
    let scope = scope_with_variables(alloc)?;
    let expr = read(alloc, source)?;
    given_value(alloc, &expr, &scope, IntType::Int8, Rate::Uniform).map(|_| true)
}

/// How many arguments are passed.
fn passed(alloc: Global, source: &[u8]) -> Result<usize, SourceFault> {
    let scope = scope_with_variables(alloc)?;
    let tokens = tokens(alloc, source)?;
    let (args, _) = read_arguments(alloc, 64, &tokens, source_end(source))?;
    arguments(alloc, &args, &scope).map(|given| given.len())
}

// Expressions with their types and rates.
const TYPED: &[(&str, IntType, Rate)] = &[
    // Operations have the joined type.
    ("1 << programIndex", IntType::Int32, Rate::Varying),
    ("true ? 1 : programIndex", IntType::Int32, Rate::Varying),
    ("true + true", IntType::Int32, Rate::Uniform),
    ("5000000000", IntType::Int64, Rate::Uniform),
    // Variables have their own.
    ("x + x", IntType::Int8, Rate::Uniform),
    ("x << 1", IntType::Int8, Rate::Uniform),
    ("a[x]", IntType::Int16, Rate::Uniform),
    ("a[programIndex]", IntType::Int16, Rate::Varying),
    ("(int8)1", IntType::Int8, Rate::Uniform),
    (
        "reduce_add((int8)programIndex)",
        IntType::Int16,
        Rate::Uniform,
    ),
];

// Expressions with the numbers and columns of their faults.
const REFUSED: &[(&str, RefusalNumber, u32)] = &[
    // Those of casts stand at the parenthesis.
    ("(uniform int8)programIndex", RefusalNumber::S7, 1),
    ("(void)1", RefusalNumber::S8, 1),
    // A name of no value.
    ("y + z", RefusalNumber::S5, 1),
    ("y[z]", RefusalNumber::S5, 3),
    ("1 + (a)", RefusalNumber::S8, 5),
    ("a[true]", RefusalNumber::S8, 3),
    ("broadcast(x, programIndex)", RefusalNumber::S7, 14),
];

#[test]
fn expressions_have_types_and_rates(rt: HostRuntime) {
    for &(source, value_type, rate) in TYPED {
        let found = typed(rt.alloc(), source.as_bytes());
        holds(&rt, found == Ok((value_type, rate)), source);
    }
}

#[test]
fn faults_of_expressions_stand_at_their_tokens(rt: HostRuntime) {
    for &(source, number, col) in REFUSED {
        let found = typed(rt.alloc(), source.as_bytes());
        holds(&rt, found == Err(refused(number, col)), source);
    }
}

#[test]
fn a_varying_value_is_given_to_nothing_uniform(rt: HostRuntime) {
    let number = given(rt.alloc(), b"1");
    holds(&rt, number == Ok(true), "1");
    let varying = given(rt.alloc(), b"1 + programIndex");
    let fault = refused(RefusalNumber::S7, 1);
    holds(&rt, varying == Err(fault), "1 + programIndex");
}

#[test]
fn arguments_pass_arrays_and_variables(rt: HostRuntime) {
    let three = passed(rt.alloc(), b"a, &x, &a[1])");
    holds(&rt, three == Ok(3), "a, &x, &a[1]");
    let varying = passed(rt.alloc(), b"&a[programIndex], &z)");
    let fault = refused(RefusalNumber::S7, 4);
    holds(&rt, varying == Err(fault), "&a[programIndex], &z");
}
