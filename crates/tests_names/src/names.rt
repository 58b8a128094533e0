//! Scopes, and faults of names in expressions.
use crate::told::{holds, refused};
use gang_model::RefusalNumber::{S5, S12};
use gang_model::{RefusalNumber, SourceRefusal};
use gang_types::VarId;
use ispc_lexer::{source_end, tokens};
use ispc_names_faults::{arguments_fault, expression_fault};
use ispc_names_scopes::{FunctionNames, Scopes, StatementCall, is_library_name, statement_call};
use ispc_parser_expressions::{arguments, expression};
use source_answers::SourceFault;
use std::alloc::Global;

/// A function `f` and the parameter `a`.
fn surroundings(alloc: Global) -> Result<(FunctionNames, Scopes), SourceFault> {
    let mut functions = FunctionNames::new(alloc);
    functions.add(alloc, b"f")?;
    let mut scopes = Scopes::new(alloc);
    scopes.begin_function();
    scopes.declare(alloc, b"a")?;
    Ok((functions, scopes))
}

fn shadowing(alloc: Global) -> Result<bool, SourceFault> {
    let mut scopes = Scopes::new(alloc);
    scopes.declare_in_file(alloc, b"g", 0)?;
    let file = scopes.begin_function();
    let outer = scopes.declare(alloc, b"x")?;
    let block = scopes.enter();
    let fresh = !scopes.is_here(b"x") && scopes.find(b"x") == Some(outer);
    let inner = scopes.declare(alloc, b"x")?;
    let hidden = scopes.is_here(b"x") && scopes.find(b"x") == Some(inner);
    scopes.leave(block);
    let back = scopes.is_here(b"x") && scopes.find(b"x") == Some(outer);
    let last = scopes.declare(alloc, b"y")? == VarId::Local(2);
    scopes.leave(file);
    let gone = scopes.find(b"x").is_none() && scopes.find(b"g") == Some(VarId::File(0));
    Ok(fresh && hidden && back && last && gone)
}

#[test]
fn inner_declarations_hide_outer_ones(rt: HostRuntime) {
    holds(&rt, shadowing(rt.alloc()) == Ok(true), "shadowing");
}

/// The fault of an expression in these surroundings.
fn fault(alloc: Global, text: &[u8]) -> Result<Option<SourceRefusal>, SourceFault> {
    let (functions, scopes) = surroundings(alloc)?;
    let tokens = tokens(alloc, text)?;
    let (expr, _) = expression(alloc, 64, &tokens, source_end(text))?;
    Ok(expression_fault(&expr, &functions, &scopes))
}

// Expressions with the number and the column of their faults.
const REFUSED: &[(&str, RefusalNumber, u32)] = &[
    // A name that nothing declares.
    ("a + b", S5, 5),
    // A call inside an expression, and one with its fault inside.
    ("f(a)", S12, 1),
    ("f(b)", S5, 3),
];

#[test]
fn faults_of_expressions(rt: HostRuntime) {
    for &(text, number, col) in REFUSED {
        let found = fault(rt.alloc(), text.as_bytes());
        holds(&rt, found == Ok(Some(refused(number, col))), text);
    }
    let library = fault(rt.alloc(), b"abs(programIndex)");
    holds(&rt, library == Ok(None), "abs(programIndex)");
}

/// The fault of arguments in these surroundings.
fn fault_of_arguments(alloc: Global, text: &[u8]) -> Result<Option<SourceRefusal>, SourceFault> {
    let (functions, scopes) = surroundings(alloc)?;
    let tokens = tokens(alloc, text)?;
    let (args, _) = arguments(alloc, 64, &tokens, source_end(text))?;
    Ok(arguments_fault(&args, &functions, &scopes))
}

#[test]
fn faults_of_arguments(rt: HostRuntime) {
    let found = fault_of_arguments(rt.alloc(), b"&c)");
    holds(&rt, found == Ok(Some(refused(S5, 2))), "&c");
}

#[test]
fn library_names(rt: HostRuntime) {
    holds(&rt, is_library_name(b"reduce_add"), "reduce_add");
    holds(&rt, is_library_name(b"packmask"), "packmask");
    holds(&rt, !is_library_name(b"assert"), "assert");
    holds(&rt, !is_library_name(b"reduce"), "reduce");
    let packed = statement_call(b"packed_load_active");
    holds(
        &rt,
        packed == Some(StatementCall::PackedLoad),
        "packed_load_active",
    );
    holds(&rt, statement_call(b"abs").is_none(), "abs");
}
