//! The selector and the labels of a `switch`. What is judged stands in line 2, after a variable of the selector's type.
use crate::told::holds_for;
use gang_model::{RefusalNumber, SourceRefusal};
use gang_types::Place;
use ispc_lexer::{source_end, tokens};
use ispc_names::resolve;
use ispc_parser::parse;
use source_answers::SourceFault;
use std::alloc::Global;
use type_check::{Checked, check};
use typed_tree::Stmt;

/// A function with a variable `v` of this type, and these statements in line 2.
fn checked(alloc: Global, spec: &[u8], statements: &[u8]) -> Result<Checked, SourceFault> {
    let mut source = Vec::new(alloc);
    source.extend_from_slice(b"export void go() { ")?;
    source.extend_from_slice(spec)?;
    source.extend_from_slice(b" v = 1;\n")?;
    source.extend_from_slice(statements)?;
    source.extend_from_slice(b" }")?;
    let tokens = tokens(alloc, &source)?;
    let tree = parse(alloc, &tokens, source_end(&source))?;
    check(alloc, resolve(alloc, tree)?)
}

fn judged(alloc: Global, spec: &[u8], statements: &[u8]) -> Result<(), SourceFault> {
    checked(alloc, spec, statements)?;
    Ok(())
}

/// The words of the first two labels of a switch that is the second statement.
fn labels(
    alloc: Global,
    spec: &[u8],
    statements: &[u8],
) -> Result<Option<(Option<u64>, Option<u64>)>, SourceFault> {
    let checked = checked(alloc, spec, statements)?;
    let Some(function) = checked.program().functions.first() else {
        return Ok(None);
    };
    match function.body.as_slice() {
        [_, Stmt::Switch { segments, .. }, ..] => match segments.as_slice() {
            [first, second, ..] => Ok(Some((first.label, second.label))),
            _ => Ok(None),
        },
        _ => Ok(None),
    }
}

/// The step of the last statement, if it is an assignment with an operator.
fn last_step(alloc: Global, spec: &[u8], statements: &[u8]) -> Result<Option<usize>, SourceFault> {
    let checked = checked(alloc, spec, statements)?;
    let Some(function) = checked.program().functions.first() else {
        return Ok(None);
    };
    match function.body.last() {
        Some(Stmt::Change { step, .. }) => Ok(Some(*step)),
        _ => Ok(None),
    }
}

// What stands in a function with a variable `v` of the type, and the column of line 2 at which S8 refuses it, if it does.
const JUDGED: &[(&str, &str, Option<u32>)] = &[
    // Labels of signed types reach their ends.
    ("int8", "switch (v) { case -128: case 127: ; }", None),
    (
        "uniform int8",
        "switch (v) { case -128: case 127: ; }",
        None,
    ),
    ("int16", "switch (v) { case -32768: case 32767: ; }", None),
    (
        "uniform int16",
        "switch (v) { case -32768: case 32767: ; }",
        None,
    ),
    (
        "int",
        "switch (v) { case -2147483648: case 2147483647: ; }",
        None,
    ),
    (
        "uniform int",
        "switch (v) { case -2147483648: case 2147483647: ; }",
        None,
    ),
    (
        "int64",
        "switch (v) { case -9223372036854775808: case 9223372036854775807: ; }",
        None,
    ),
    (
        "uniform int64",
        "switch (v) { case -9223372036854775808: case 9223372036854775807: ; }",
        None,
    ),
    // Labels of unsigned types reach their ends.
    ("uint8", "switch (v) { case -0: case 255: ; }", None),
    ("uniform uint8", "switch (v) { case -0: case 255: ; }", None),
    ("uint16", "switch (v) { case 0: case 65535: ; }", None),
    (
        "uniform uint16",
        "switch (v) { case 0: case 65535: ; }",
        None,
    ),
    ("uint", "switch (v) { case 0: case 4294967295: ; }", None),
    (
        "uniform uint",
        "switch (v) { case 0: case 4294967295: ; }",
        None,
    ),
    (
        "uint64",
        "switch (v) { case 0: case 18446744073709551615: ; }",
        None,
    ),
    (
        "uniform uint64",
        "switch (v) { case 0: case 18446744073709551615: ; }",
        None,
    ),
    // Labels past the ends of signed types.
    ("int8", "switch (v) { case 128: ; }", Some(14)),
    ("uniform int8", "switch (v) { case -129: ; }", Some(14)),
    ("int8", "switch (v) { case 300: ; }", Some(14)),
    ("uniform int16", "switch (v) { case 32768: ; }", Some(14)),
    ("int16", "switch (v) { case -32769: ; }", Some(14)),
    (
        "int",
        "switch (v) { default: case 2147483648: ; }",
        Some(23),
    ),
    (
        "uniform int",
        "switch (v) { default: case -2147483649: ; }",
        Some(23),
    ),
    (
        "uniform int64",
        "switch (v) { case 9223372036854775808: ; }",
        Some(14),
    ),
    (
        "int64",
        "switch (v) { case -9223372036854775809: ; }",
        Some(14),
    ),
    // Labels past the ends of unsigned types.
    ("uint8", "switch (v) { case -1: ; }", Some(14)),
    ("uniform uint8", "switch (v) { case 256: ; }", Some(14)),
    ("uniform uint16", "switch (v) { case -1: ; }", Some(14)),
    ("uint16", "switch (v) { case 65536: ; }", Some(14)),
    ("uint", "switch (v) { case -1: ; }", Some(14)),
    (
        "uniform uint",
        "switch (v) { case 4294967296: ; }",
        Some(14),
    ),
    ("uint64", "switch (v) { case -1: ; }", Some(14)),
    (
        "uniform uint64",
        "switch (v) { case -18446744073709551615: ; }",
        Some(14),
    ),
    // A selector is no bool.
    ("bool", "switch (v) { case 1: ; }", Some(9)),
    ("uniform bool", "switch (v) { case 1: ; }", Some(9)),
    ("bool", "switch ((v)) { }", Some(9)),
    ("int", "switch (1 < v) { case 300: ; }", Some(9)),
    ("bool", "switch (+v) { case -1: ; }", None),
    // A selector has its own type.
    ("int8", "switch (v + 1u) { case 4294967295: ; }", None),
    ("int8", "switch (v + 1u) { case -1: ; }", Some(19)),
    ("int8", "switch (3) { case 2147483648: ; }", Some(14)),
    ("int8", "switch (programIndex) { case 128: ; }", None),
    // Each switch has labels of its own type.
    (
        "int8",
        "int64 w = 1; switch (v) { case 1: switch (w) { case 300: ; } }",
        None,
    ),
    (
        "int8",
        "int64 w = 1; switch (v) { case 1: switch (w) { case 300: ; } case 300: ; }",
        Some(62),
    ),
    (
        "int8",
        "int64 w = 1; switch (w) { case 300: switch (v) { case 1: case 300: ; } }",
        Some(58),
    ),
    // Labels are judged whichever lanes come there.
    ("int8", "if (v > 1) switch (v) { case 128: ; }", Some(25)),
    (
        "int8",
        "while (v > 1) { switch (v) { case 1: break; case 128: continue; } }",
        Some(45),
    ),
    // Statements of segments are judged.
    (
        "int8",
        "switch (v) { case 1: v[0] = 1; case 300: ; }",
        Some(22),
    ),
    (
        "int8",
        "switch (v) { case 1: ; default: v[0] = 1; }",
        Some(33),
    ),
];

/// S8 at a column of line 2, or what is judged well.
fn answer(col: Option<u32>) -> Result<(), SourceFault> {
    match col {
        Some(col) => Err(SourceFault::Refused(SourceRefusal {
            number: RefusalNumber::S8,
            place: Place { line: 2, col },
        })),
        None => Ok(()),
    }
}

#[test]
fn selectors_and_labels_are_judged(rt: HostRuntime) {
    for &(spec, statements, col) in JUDGED {
        let found = judged(rt.alloc(), spec.as_bytes(), statements.as_bytes());
        holds_for(&rt, found == answer(col), spec, statements);
    }
}

// The words of the first two labels, of which one is none at `default`.
const LABELS: &[(&str, &str, (Option<u64>, Option<u64>))] = &[
    (
        "int8",
        "switch (v) { case -128: case 127: ; }",
        (Some(0xffff_ffff_ffff_ff80), Some(127)),
    ),
    (
        "uint8",
        "switch (v) { case -0: case 255: ; }",
        (Some(0), Some(255)),
    ),
    (
        "int",
        "switch (v) { default: case -1: ; }",
        (None, Some(u64::MAX)),
    ),
];

#[test]
fn labels_have_words_of_the_type_of_the_selector(rt: HostRuntime) {
    for &(spec, statements, wanted) in LABELS {
        let found = labels(rt.alloc(), spec.as_bytes(), statements.as_bytes());
        holds_for(&rt, found == Ok(Some(wanted)), spec, statements);
    }
}

// The number of the last statement's step.
const LAST_STEPS: &[(&str, &str, usize)] = &[
    (
        "int",
        "switch (programIndex) { case 0: v += 1; case 2: v += 10; break; default: v += 100; } v += 1000;",
        6,
    ),
    ("int", "switch (v) { } v += 1;", 2),
];

#[test]
fn steps_of_segments_are_numbered(rt: HostRuntime) {
    for &(spec, statements, wanted) in LAST_STEPS {
        let found = last_step(rt.alloc(), spec.as_bytes(), statements.as_bytes());
        holds_for(&rt, found == Ok(Some(wanted)), spec, statements);
    }
}
