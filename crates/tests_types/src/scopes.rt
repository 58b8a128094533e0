//! Worked by hand.
ghost use Rattle.std.specs.Prelude.{◌≡◌};
ghost use Rattle.gang_types.specs.declared.places.VarId.TheVariants.{Local};

use crate::told::holds;
use gang_model::{RefusalNumber, SourceRefusal, Spec};
use gang_types::{IntType, Place, Rate, VarId};
use ispc_names_scopes::is_same;
use source_answers::{SourceFault, both, refuse};
use std::alloc::Global;
use type_check_scopes::{Declared, TypeScope, built_in, declared_with, index_variable};
use typed_tree::Expr;

fn refused(number: RefusalNumber, line: u32, col: u32) -> SourceRefusal {
    SourceRefusal {
        number,
        place: Place { line, col },
    }
}

/// A spec with a type, or with `void`.
fn spec(value_type: Option<IntType>) -> Spec {
    Spec {
        is_exported: false,
        is_static: false,
        is_inline: false,
        is_constant: false,
        rate: None,
        value_type,
    }
}

/// A uniform variable.
fn variable(id: VarId, value_type: IntType) -> Declared {
    Declared {
        id,
        value_type,
        rate: Rate::Uniform,
        is_array: false,
        is_parameter: false,
        is_constant: false,
        is_void: false,
    }
}

/// A uniform variable of a function.
fn local(number: usize, value_type: IntType) -> Declared
    ensures { result.id ≡ Local number }
{
    Declared {
        id: VarId::Local(number),
        value_type,
        rate: Rate::Uniform,
        is_array: false,
        is_parameter: false,
        is_constant: false,
        is_void: false,
    }
}

fn shadowing(alloc: Global) -> Result<bool, SourceFault> {
    let file = variable(VarId::File(3), IntType::Int64);
    let mut scope = TypeScope::new(alloc);
    scope.declare_in_file(alloc, b"x", file)?;
    scope.begin_function();
    let function = scope.mark();
    let outer = local(scope.next(), IntType::Int32);
    scope.declare(alloc, b"x", outer)?;
    let block = scope.mark();
    let inner = local(scope.next(), IntType::Uint8);
    scope.declare(alloc, b"x", inner)?;
    let inside = scope.find(b"x") == Some(inner);
    scope.leave(block);
    let back = scope.find(b"x") == Some(outer) && scope.next() == 2;
    scope.leave(function);
    Ok(inside && back && scope.find(b"x") == Some(file))
}

fn other_names(alloc: Global) -> Result<bool, SourceFault> {
    let mut scope = TypeScope::new(alloc);
    scope.begin_function();
    let count = local(scope.next(), IntType::Int32);
    scope.declare(alloc, b"count", count)?;
    let longer = scope.find(b"counter");
    let shorter = scope.find(b"coun");
    Ok(longer.is_none() && shorter.is_none() && scope.find(b"count") == Some(count))
}

fn variables_of_functions(alloc: Global) -> Result<bool, SourceFault> {
    let mut scope = TypeScope::new(alloc);
    scope.begin_function();
    let first = local(scope.next(), IntType::Int32);
    scope.declare(alloc, b"a", first)?;
    let second = local(scope.next(), IntType::Bool);
    scope.declare(alloc, b"b", second)?;
    let locals = scope.take_locals(alloc);
    let [a, b] = locals.as_slice() else {
        return Ok(false);
    };
    let in_order = is_same(&a.name, b"a") && is_same(&b.name, b"b");
    let numbered = a.id == VarId::Local(0) && b.id == VarId::Local(1);
    let typed = a.value_type == IntType::Int32 && b.value_type == IntType::Bool;
    Ok(in_order && numbered && typed && scope.next() == 0)
}

#[test]
fn inner_declarations_hide_outer_ones(rt: HostRuntime) {
    holds(&rt, shadowing(rt.alloc()) == Ok(true), "shadowing");
}

#[test]
fn names_that_nothing_declares(rt: HostRuntime) {
    holds(&rt, other_names(rt.alloc()) == Ok(true), "other names");
}

#[test]
fn variables_by_their_numbers(rt: HostRuntime) {
    holds(
        &rt,
        variables_of_functions(rt.alloc()) == Ok(true),
        "numbers",
    );
}

#[test]
fn lesser_fault_of_two_parts(rt: HostRuntime) {
    let early = SourceFault::Refused(refused(RefusalNumber::S7, 1, 9));
    let late = SourceFault::Refused(refused(RefusalNumber::S2, 2, 1));
    let first: Result<u8, SourceFault> = Err(late);
    let second: Result<u8, SourceFault> = Err(early);
    holds(&rt, both(first, second) == Err(early), "the earlier fault");
    holds(&rt, both(Ok(1), second) == Err(early), "the one fault");
    let sound: Result<(u8, u8), SourceFault> = both(Ok(1), Ok(2));
    holds(&rt, sound == Ok((1, 2)), "no fault");
    let refusal = refused(RefusalNumber::S7, 1, 9);
    holds(&rt, refuse(Some(refusal)) == Err(early), "a refusal");
    holds(&rt, refuse(None).is_ok(), "no refusal");
}

#[test]
fn what_declarations_are(rt: HostRuntime) {
    let number = declared_with(VarId::File(0), spec(Some(IntType::Uint16)), false, true);
    let kind = (number.value_type, number.rate);
    holds(&rt, kind == (IntType::Uint16, Rate::Varying), "a number");
    holds(&rt, number.is_parameter && !number.is_void, "a parameter");
    let nothing = declared_with(VarId::File(0), spec(None), false, false);
    holds(&rt, nothing.is_void, "a void");
    let index = index_variable(VarId::Local(2), IntType::Int32, Rate::Varying);
    let is_so = index.is_constant && index.id == VarId::Local(2);
    holds(&rt, is_so, "an index variable");
}

// The rate of a name of the gang, and whether it is a lane's number.
fn of_gang(name: &[u8]) -> Option<(Rate, bool)> {
    match built_in(name) {
        Some(value) => Some((value.rate, matches!(&value.expr, Expr::ProgramIndex))),
        None => None,
    }
}

#[test]
fn names_of_the_gang(rt: HostRuntime) {
    let lane = of_gang(b"programIndex");
    holds(&rt, lane == Some((Rate::Varying, true)), "programIndex");
    let width = of_gang(b"programCount");
    holds(&rt, width == Some((Rate::Uniform, false)), "programCount");
    holds(&rt, of_gang(b"program").is_none(), "program");
}
