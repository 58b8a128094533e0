//! Which function a call means, by the costs of its arguments.
use crate::told::{holds, refused};
use gang_model::RefusalNumber;
use gang_types::Place;
use ispc_lexer::{source_end, tokens};
use ispc_parser::parse;
use source_answers::SourceFault;
use source_tree::{Expr, Function, Item, Stmt, Tree};
use std::alloc::Global;
use type_check_calls::{Context, WholeCall, call_of, whole_call};
use type_check_scopes::TypeScope;
use typed_tree::{ResultFor, Stmt as TypedStmt};

fn functions_of(alloc: Global, tree: &Tree) -> Result<Vec<&Function>, SourceFault> {
    let mut functions = Vec::new(alloc);
    for item in &tree.items {
        if let Item::Function(function) = item {
            functions.push(function)?;
        }
    }
    Ok(functions)
}

/// The number of the function that the first statement of the last function calls.
fn meant(alloc: Global, source: &[u8]) -> Result<Option<usize>, SourceFault> {
    let tokens = tokens(alloc, source)?;
    let tree = parse(alloc, &tokens, source_end(source))?;
    let functions = functions_of(alloc, &tree)?;
    let Some(last) = functions.last() else {
        return Ok(None);
    };
    let Some(Stmt::Call { place, name, args }) = last.body.first() else {
        return Ok(None);
    };
    let context = Context {
        functions: &functions,
        result: None,
    };
    let call = WholeCall {
        place: *place,
        name,
        args,
    };
    let scope = TypeScope::new(alloc);
    call_of(alloc, &context, &scope, &call, ResultFor::Nothing, 0).map(|called| {
        match &*called.stmt {
            TypedStmt::Call { function, .. } => Some(*function),
            _ => None,
        }
    })
}

// The number of the function that is called, or none of the source's.
const MEANT: &[(&str, Option<usize>)] = &[
    // The one that costs least.
    (
        "void f(int64 x){} void f(int x){} void g(){ f(1); }",
        Some(1),
    ),
    // What is asserted is a truth value.
    ("void g(){ assert(true); }", None),
];

// Calls that mean no function.
const REFUSED: &[(&str, RefusalNumber, u32)] = &[
    // Two that widen are a tie.
    (
        "void f(int64 x){} void f(int16 x){} void g(){ f((int8)1); }",
        RefusalNumber::S10,
        47,
    ),
    // So is the least sum with a dearer argument.
    (
        "void f(int16 a, int8 b, int8 c){} void f(int8 a, int16 b, int16 c){} void g(){ f((int8)programIndex, (int8)programIndex, (int8)programIndex); }",
        RefusalNumber::S10,
        80,
    ),
    // A varying value goes to no uniform parameter.
    (
        "void f(uniform int x){} void g(){ f(programIndex); }",
        RefusalNumber::S9,
        35,
    ),
];

#[test]
fn the_function_that_costs_least_is_called(rt: HostRuntime) {
    for &(source, wanted) in MEANT {
        let found = meant(rt.alloc(), source.as_bytes());
        holds(&rt, found == Ok(wanted), source);
    }
}

#[test]
fn calls_that_mean_no_function_are_refused(rt: HostRuntime) {
    for &(source, number, col) in REFUSED {
        let found = meant(rt.alloc(), source.as_bytes());
        holds(&rt, found == Err(refused(number, col)), source);
    }
}

#[test]
fn a_number_is_no_call(rt: HostRuntime) {
    let truth = Expr::Truth {
        place: Place { line: 1, col: 1 },
        value: true,
    };
    holds(&rt, whole_call(&[], &truth).is_none(), "a number");
}
