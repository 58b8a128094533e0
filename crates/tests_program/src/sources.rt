//! Sources that are refused, each at its place, and programs with their entries. The place is a column of line 1.
use crate::told::holds;
use gang_model::{RefusalNumber, SourceRefusal};
use gang_types::{FuncId, Place};
use ispc_compiler::compile_source;
use source_answers::SourceFault;
use std::alloc::Global;

/// The number of functions and of file-scope variables of a source's program, with its entry.
fn compiled(
    alloc: Global,
    source: &[u8],
    asked: Option<&[u8]>,
) -> Result<Option<(usize, usize, FuncId)>, SourceFault> {
    let Some(compiled) = compile_source(alloc, source, asked)? else {
        return Ok(None);
    };
    let program = &compiled.program;
    Ok(Some((
        program.functions.len(),
        program.globals.len(),
        compiled.entry,
    )))
}

fn is_refused(alloc: Global, source: &[u8], number: RefusalNumber, col: u32) -> bool {
    let place = Place { line: 1, col };
    let refused = SourceFault::Refused(SourceRefusal { number, place });
    compiled(alloc, source, None) == Err(refused)
}

/// Whether a source without an exported function has no fault.
fn is_accepted(alloc: Global, source: &[u8]) -> bool {
    compiled(alloc, source, None) == Ok(None)
}

// Sources with the number and the column of their refusal: by the first phase that finds a fault, and of arrays, packed calls
// and parameters by names and types.
const REFUSED: &[(&str, RefusalNumber, u32)] = &[
    ("int g; int a[4];", RefusalNumber::S7, 12),
    ("void f() { a[1] = 2; }", RefusalNumber::S5, 12),
    ("void f() { ++a[1]; }", RefusalNumber::S5, 14),
    ("void f() { int x = 1 + (a[1]); }", RefusalNumber::S5, 25),
    (
        "void f() { packed_store_active(&x, 1); }",
        RefusalNumber::S5,
        33,
    ),
    (
        "void f() { packed_load_active(&a[1], &x); }",
        RefusalNumber::S5,
        32,
    ),
    (
        "int x; void f() { packed_store_active(&x, 1); }",
        RefusalNumber::S9,
        19,
    ),
    ("void f(int x[]) { }", RefusalNumber::S7, 12),
    ("void f(int x, int y[]) { }", RefusalNumber::S7, 19),
    ("export void f(int x) { }", RefusalNumber::S7, 19),
    ("void f() { ` }", RefusalNumber::S1, 12),
    ("void f() { x = 1 }", RefusalNumber::S3, 18),
    (
        "void f() { uniform int u = programIndex; x = 1; }",
        RefusalNumber::S5,
        42,
    ),
    ("void v; void f() { }", RefusalNumber::S8, 6),
];

#[test]
fn refusals_stand_at_their_columns(rt: HostRuntime) {
    for &(source, number, col) in REFUSED {
        let is_so = is_refused(rt.alloc(), source.as_bytes(), number, col);
        holds(&rt, is_so, source);
    }
}

// Sources without an exported function that have no fault.
const ACCEPTED: &[&str] = &[
    "void f() { foreach (i = 0 ... 4) ; }",
    "void f() { foreach_tiled (i = 0 ... 4) ; }",
    "void f() { foreach_active (i) ; }",
    "void f() { foreach_unique (v in 1) ; }",
    "void f() { for (;;) { if (true) foreach_active (i) ; } }",
    "void f() { switch (1) { case 1: break; default: { int x = 2; } } }",
    "int g; uniform int a[4];",
    "void f(uniform int x[]) { }",
];

#[test]
fn foreach_forms_switch_and_arrays_are_let_through(rt: HostRuntime) {
    for source in ACCEPTED {
        holds(&rt, is_accepted(rt.alloc(), source.as_bytes()), source);
    }
}

const ENTRIES: &str =
    "int g; void f(int a) { if (a > 0) return; } export void e() { f(g); } export void l() { g /= 2; }";

// Sources, the entry that is asked for, and the numbers of functions and of variables and the entry's, if there is one.
const COMPILED: &[(&str, Option<&[u8]>, Option<(usize, usize, FuncId)>)] = &[
    (
        "export void f(uniform int x) { }",
        None,
        Some((1, 0, FuncId(0))),
    ),
    (
        "export void f(uniform int x[]) { }",
        None,
        Some((1, 0, FuncId(0))),
    ),
    (
        "export void f(uniform int x) { } export void g() { f(1); }",
        Some(b"g"),
        Some((2, 0, FuncId(1))),
    ),
    (ENTRIES, None, Some((3, 1, FuncId(1)))),
    (ENTRIES, Some(b"l"), Some((3, 1, FuncId(2)))),
    (ENTRIES, Some(b"f"), None),
];

#[test]
fn a_program_has_its_entry(rt: HostRuntime) {
    for &(source, asked, wanted) in COMPILED {
        let found = compiled(rt.alloc(), source.as_bytes(), asked);
        holds(&rt, found == Ok(wanted), source);
    }
}
