//! Rows of the language's rules: columns are counted in the source that stands there.
use crate::told::{holds, refused};
use gang_model::RefusalNumber::{S5, S6, S11, S12};
use gang_model::{RefusalNumber, SourceRefusal};
use ispc_lexer::{source_end, tokens};
use ispc_names_faults::names_fault;
use ispc_parser::parse;
use source_answers::SourceFault;
use std::alloc::Global;

fn fault(alloc: Global, source: &[u8]) -> Result<Option<SourceRefusal>, SourceFault> {
    let tokens = tokens(alloc, source)?;
    let tree = parse(alloc, &tokens, source_end(source))?;
    Ok(names_fault(alloc, &tree)?)
}

// Sources with the number and the column of their first fault.
const REFUSED: &[(&str, RefusalNumber, u32)] = &[
    // Names that nothing declares.
    ("void f() { x = 1; }", S5, 12),
    ("void f() { { int x; } x = 1; }", S5, 23),
    ("void f() { for (int i = i;;) ; }", S5, 25),
    ("void f() { g(); }", S5, 12),
    ("void f() { foreach (i = 0 ... 2, j = i ... 3) ; }", S5, 38),
    // Names that stand twice.
    ("int g; int g;", S6, 12),
    ("void f(int a) { int a; }", S6, 21),
    ("void f(int a, int a) { }", S6, 19),
    ("void f() { int x; int x; }", S6, 23),
    ("int programCount;", S6, 5),
    ("void any() { }", S6, 6),
    ("void f(int a) { } int f(int32 b) { return b; }", S6, 23),
    // Statements that may not stand there.
    ("void f() { break; }", S11, 12),
    ("void f() { foreach (i = 0 ... 2) break; }", S11, 34),
    ("void f() { foreach (i = 0 ... 2) return; }", S11, 34),
    (
        "void f() { foreach (i = 0 ... 2) foreach (j = 0 ... 2) ; }",
        S11,
        34,
    ),
    // Calls that may not stand there.
    ("int f() { return 1 + f(); }", S12, 22),
    ("void f(int a) { a = assert(true); }", S12, 21),
    ("void f(int a) { abs(a); }", S12, 17),
    ("int b[4]; int f() { b[0] = f(); return 1; }", S12, 28),
    // The first of two faults.
    ("void f() { x = 1; break; }", S5, 12),
    ("void f() { break; x = 1; }", S11, 12),
    // Jumps in a switch.
    ("void f() { switch (1) { default: continue; } }", S11, 34),
    ("void f() { switch (1) { default: ; } break; }", S11, 38),
    (
        "void f() { switch (1) { case 0: foreach (i = 0 ... 2) break; } }",
        S11,
        55,
    ),
    (
        "void f() { foreach (i = 0 ... 2) switch (i) { default: return; } }",
        S11,
        56,
    ),
    // Labels that stand twice.
    (
        "export void go() { switch (1) { case 1: case 1: ; } }",
        S6,
        41,
    ),
    ("void f() { switch (1) { case 1: ; case 0x1: ; } }", S6, 35),
    ("void f() { switch (1) { case 0: ; case -0: ; } }", S6, 35),
    (
        "void f() { switch (1) { default: ; case 1: ; default: ; } }",
        S6,
        46,
    ),
    (
        "void f() { switch (1) { case 1: case 2: case 1: ; } }",
        S6,
        41,
    ),
    (
        "void f() { switch (1) { case 1: switch (2) { default: ; } case 1: ; } }",
        S6,
        59,
    ),
    // Names in a switch.
    ("void f() { switch (x) { default: ; } }", S5, 20),
    (
        "void f() { switch (1) { case 0: { int x; } case 1: x = 1; } }",
        S5,
        52,
    ),
    (
        "void f() { switch (1) { case 0: { int x; } } x = 1; }",
        S5,
        46,
    ),
];

#[test]
fn faults_of_names_stand_at_their_columns(rt: HostRuntime) {
    for &(source, number, col) in REFUSED {
        let found = fault(rt.alloc(), source.as_bytes());
        holds(&rt, found == Ok(Some(refused(number, col))), source);
    }
}

// Sources without a fault of names.
const ACCEPTED: &[&str] = &[
    // Names that nothing declares.
    "int g; void f(int a) { int x = a + programIndex; { int x = x; g = x; } }",
    "void f() { for (int i = 0; i < 2; i++) { int j = i; } g = 1; } int g;",
    // Names that stand twice.
    "void f(int a) { } void f(uniform int a) { } void f(int64 a) { }",
    "int g; void f(int g) { { int g; } }",
    // Statements that may not stand there.
    "void f() { foreach (i = 0 ... 2) while (true) break; }",
    "void f() { foreach_active (i) { continue; } return; }",
    // Calls that may not stand there.
    "int f() { int a = (f()); return f(); }",
    // Jumps in a switch.
    "void f() { switch (1) { case 0: break; default: if (true) break; } }",
    "void f() { while (true) switch (1) { case 0: continue; default: break; } }",
    "void f() { foreach (i = 0 ... 2) switch (i) { case 0: break; default: continue; } }",
    // Labels that stand twice.
    "void f() { switch (1) { case 1: case -1: case 0: case 10: default: ; } }",
    "void f() { switch (1) { case 1: switch (2) { case 1: ; default: ; } default: ; } }",
    // Names in a switch.
    "void f() { int x; switch (x) { case 0: { int x; } default: { int x; x = 1; } } }",
];

#[test]
fn sources_without_a_fault_of_names(rt: HostRuntime) {
    for source in ACCEPTED {
        holds(
            &rt,
            fault(rt.alloc(), source.as_bytes()) == Ok(None),
            source,
        );
    }
}
