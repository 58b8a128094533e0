//! Sources with and without faults of names, and what their names stand for.
use crate::told::{holds, holds_at, refused};
use gang_model::RefusalNumber;
use gang_types::{FuncId, Spot, VarId};
use ispc_lexer::{source_end, tokens};
use ispc_names::{Named, resolve};
use ispc_parser::parse;
use source_answers::SourceFault;
use std::alloc::Global;

fn named(alloc: Global, source: &[u8]) -> Result<Named, SourceFault> {
    let tokens = tokens(alloc, source)?;
    let tree = parse(alloc, &tokens, source_end(source))?;
    resolve(alloc, tree)
}

fn step(function: usize, number: usize) -> Spot {
    Spot {
        function: FuncId(function),
        number,
    }
}

const SOURCE: &[u8] =
    b"int g; void e() { } int x; void f(int a) { int x = a; { int g = x; a = g; } }";

// At a step, or in the file, the variable of a name.
const FOUND: &[(Option<(usize, usize)>, &str, Option<VarId>)] = &[
    (None, "g", Some(VarId::File(0))),
    (None, "x", Some(VarId::File(1))),
    (None, "a", None),
    (Some((1, 1)), "g", Some(VarId::File(0))),
    (Some((1, 2)), "g", Some(VarId::Local(2))),
    (Some((1, 2)), "x", Some(VarId::Local(1))),
    (Some((0, 0)), "x", Some(VarId::File(1))),
];

#[test]
fn names_are_found_at_steps_and_in_the_file(rt: HostRuntime) -> Result<(), SourceFault> {
    let named = named(rt.alloc(), SOURCE)?;
    for (row, &(at, name, variable)) in FOUND.iter().enumerate() {
        let spot = match at {
            Some((function, number)) => Some(step(function, number)),
            None => None,
        };
        let is_so = named.find(spot, name.as_bytes()) == variable;
        holds_at(&rt, is_so, name, row);
    }
    Ok(())
}

// At a function's step the variable of a number.
const LISTED: &[(usize, usize, usize, Option<VarId>)] = &[
    (1, 2, 2, Some(VarId::Local(2))),
    (1, 2, 3, None),
    (2, 0, 0, None),
];

#[test]
fn variables_in_scope_are_listed_at_a_step(rt: HostRuntime) -> Result<(), SourceFault> {
    let named = named(rt.alloc(), SOURCE)?;
    for &(function, at, number, variable) in LISTED {
        let is_so = named.scope_at(step(function, at), number) == variable;
        holds_at(&rt, is_so, "a variable in scope", number);
    }
    let lengths = (named.tables().len(), named.tree().items.len());
    holds(&rt, lengths == (2, 4), "tables and items");
    let (tree, tables) = named.into_parts();
    let lengths = (tables.len(), tree.items.len());
    holds(&rt, lengths == (2, 4), "tables and items that are given up");
    Ok(())
}

#[test]
fn a_fault_of_names_is_refused(rt: HostRuntime) {
    let fault = named(rt.alloc(), b"void f() { x = 1; }").err();
    let refusal = refused(RefusalNumber::S5, 12);
    holds(&rt, fault == Some(SourceFault::Refused(refusal)), "x = 1");
}
