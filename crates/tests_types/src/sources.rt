//! Typed programs of sources, and the faults of types that are named. The place of a fault is its column in line 1.
use crate::told::{holds, refused};
use gang_model::RefusalNumber;
use gang_types::{FuncId, IntType, Rate, VarId};
use ispc_lexer::{source_end, tokens};
use ispc_names::resolve;
use ispc_parser::parse;
use source_answers::SourceFault;
use std::alloc::Global;
use type_check::{Checked, check, entry_of};

fn checked(alloc: Global, source: &[u8]) -> Result<Checked, SourceFault> {
    let tokens = tokens(alloc, source)?;
    let tree = parse(alloc, &tokens, source_end(source))?;
    check(alloc, resolve(alloc, tree)?)
}

/// The first word and the number of elements of the last variable of the file.
fn first_words(alloc: Global, source: &[u8]) -> Result<Option<(u64, u64)>, SourceFault> {
    let checked = checked(alloc, source)?;
    match checked.program().globals.last() {
        Some(global) => Ok(Some((global.word, global.length))),
        None => Ok(None),
    }
}

/// The number, type and rate of the last variable of the file.
fn last_variable(
    alloc: Global,
    source: &[u8],
) -> Result<Option<(VarId, IntType, Rate)>, SourceFault> {
    let program = checked(alloc, source)?.into_program();
    match program.globals.last() {
        Some(global) => {
            let variable = &global.variable;
            Ok(Some((variable.id, variable.value_type, variable.rate)))
        }
        None => Ok(None),
    }
}

/// The type and the rate of the first function's result, and how many variables the function has.
fn first_function(
    alloc: Global,
    source: &[u8],
) -> Result<Option<(IntType, Rate, usize)>, SourceFault> {
    let checked = checked(alloc, source)?;
    match checked.program().functions.first() {
        Some(function) => Ok(Some((
            function.result_type,
            function.result,
            function.variables.len(),
        ))),
        None => Ok(None),
    }
}

fn entry(alloc: Global, source: &[u8], name: Option<&[u8]>) -> Result<Option<FuncId>, SourceFault> {
    let checked = checked(alloc, source)?;
    Ok(entry_of(&checked, name))
}

fn items(alloc: Global, source: &[u8]) -> Result<usize, SourceFault> {
    let checked = checked(alloc, source)?;
    Ok(checked.tree().items.len())
}

// The first word of the last variable of the file, and its number of elements.
const WORDS: &[(&str, u64, u64)] = &[
    ("uniform bool b = 2;", 1, 0),
    ("uniform int64 m = -1;", u64::MAX, 0),
    ("uniform int a[3];", 0, 3),
];

#[test]
fn variables_of_the_file_have_words_and_lengths(rt: HostRuntime) {
    for &(source, word, length) in WORDS {
        let found = first_words(rt.alloc(), source.as_bytes());
        holds(&rt, found == Ok(Some((word, length))), source);
    }
}

#[test]
fn variables_of_the_file_have_numbers_and_types(rt: HostRuntime) {
    let source = b"uniform int8 a[3]; int v;";
    let last = (VarId::File(1), IntType::Int32, Rate::Varying);
    let found = last_variable(rt.alloc(), source);
    holds(&rt, found == Ok(Some(last)), "the last variable");
    holds(&rt, items(rt.alloc(), source) == Ok(2), "two items");
}

#[test]
fn functions_have_results_and_variables(rt: HostRuntime) {
    let source = b"uniform int64 f(int a, uniform int b) { int c = a; return 1; }";
    let first = (IntType::Int64, Rate::Uniform, 3);
    let found = first_function(rt.alloc(), source);
    holds(&rt, found == Ok(Some(first)), "the first function");
}

// The function that is asked for, by its name if it has one, and the number of the entry if it is one.
const ENTRIES: &[(Option<&[u8]>, Option<FuncId>)] = &[
    (None, Some(FuncId(1))),
    (Some(b"e"), Some(FuncId(1))),
    (Some(b"f"), None),
];

#[test]
fn the_entry_is_exported_and_asked_for(rt: HostRuntime) {
    let source = b"int g; void f() { } export void e() { }";
    for &(name, wanted) in ENTRIES {
        let found = entry(rt.alloc(), source, name);
        holds(&rt, found == Ok(wanted), "an entry, or none for `f`");
    }
}

// The fault with the first place.
const REFUSED: &[(&str, RefusalNumber, u32)] = &[
    (
        "int a[4]; export int f(int b) { return b; }",
        RefusalNumber::S7,
        5,
    ),
    (
        "export void f(int b) { uniform int u = b; }",
        RefusalNumber::S7,
        19,
    ),
    (
        "export int f() { return 1; } void v;",
        RefusalNumber::S7,
        12,
    ),
    ("void f(void v) { }", RefusalNumber::S8, 13),
];

#[test]
fn the_fault_with_the_first_place_is_named(rt: HostRuntime) {
    for &(source, number, col) in REFUSED {
        let found = items(rt.alloc(), source.as_bytes());
        holds(&rt, found == Err(refused(number, col)), source);
    }
}
