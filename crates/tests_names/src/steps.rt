//! Functions with their steps: what is listed at each, by the names of the variables.
use crate::told::{holds, holds_at};
use gang_types::Place;
use ispc_lexer::{source_end, tokens};
use ispc_names_steps::steps_of;
use ispc_names_table::StepScopes;
use ispc_parser::parse;
use source_answers::SourceFault;
use source_tree::Item;
use std::alloc::Global;

fn steps(alloc: Global, source: &[u8]) -> Result<StepScopes, SourceFault> {
    let tokens = tokens(alloc, source)?;
    let tree = parse(alloc, &tokens, source_end(source))?;
    for item in &tree.items {
        if let Item::Function(function) = item {
            return Ok(steps_of(alloc, function)?);
        }
    }
    Err(SourceFault::Memory)
}

/// Whether just the variables of these numbers are listed at a step.
fn lists(steps: &StepScopes, step: usize, numbers: &[usize]) -> bool {
    for (k, number) in numbers.iter().enumerate() {
        if steps.listed(step, k) != Some(*number) {
            return false;
        }
    }
    steps.listed(step, numbers.len()).is_none()
}

/// The steps of a function with the variables that are listed there.
type Rows = &'static [(usize, &'static [usize])];

// Sources with what is listed at the steps of their function.
const LISTED: &[(&str, Rows)] = &[
    // A block ends its variables.
    (
        BLOCKS,
        &[
            (0, &[0]),
            (1, &[0, 1]),
            (2, &[0, 2]),
            (3, &[0, 1]),
            (4, &[0, 1]),
        ],
    ),
    // A `for` variable is in scope at test and update.
    (LOOP, &[(0, &[]), (1, &[0]), (2, &[0]), (3, &[0]), (4, &[])]),
    // The closing brace lists what stands before a return.
    (
        "void f() { int x = 1; { return; } int y = 2; }",
        &[(2, &[0]), (3, &[0])],
    ),
    // Index variables are in scope in the body.
    (INDICES, &[(0, &[]), (1, &[0, 1]), (2, &[])]),
    // Labels and the end of a switch are no steps.
    (
        SWITCHES,
        &[
            (0, &[]),
            (1, &[]),
            (2, &[0]),
            (3, &[]),
            (4, &[]),
            (5, &[]),
            (6, &[1]),
            (7, &[]),
            (8, &[]),
        ],
    ),
    // A return in a switch is seen.
    (
        "void f() { int x = 1; switch (x) { case 0: return; } int y = 2; }",
        &[(1, &[0]), (2, &[0]), (3, &[0]), (4, &[0])],
    ),
];

const BLOCKS: &str = "void f(int a) { int x = 1; { int x = 2; a = x; } a = x; }";

const LOOP: &str = "void f() { for (int i = 0; i < 3; i++) { int x = i; } }";

const INDICES: &str = "void f() { foreach (i = 0 ... 4, j = 0 ... 2) { int x = i; } }";

const SWITCHES: &str =
    "void f() { switch (1) { case 0: { int x = 1; x = 2; } switch (2) { case 0: ; default: break; } default: { int y = 2; y = 3; } } return; }";

#[test]
fn variables_are_listed_at_steps(rt: HostRuntime) -> Result<(), SourceFault> {
    for &(source, rows) in LISTED {
        let steps = steps(rt.alloc(), source.as_bytes())?;
        for &(step, numbers) in rows {
            holds_at(&rt, lists(&steps, step, numbers), source, step);
        }
    }
    Ok(())
}

// Sources with how many variables are declared in their function and how many steps it has.
const COUNTS: &[(&str, usize, usize)] = &[(BLOCKS, 3, 5), (LOOP, 2, 5), (SWITCHES, 2, 9)];

#[test]
fn variables_and_steps_are_counted(rt: HostRuntime) -> Result<(), SourceFault> {
    for &(source, declarations, standings) in COUNTS {
        let steps = steps(rt.alloc(), source.as_bytes())?;
        let counts = (steps.declarations.len(), steps.standings.len());
        holds(&rt, counts == (declarations, standings), source);
    }
    Ok(())
}

#[test]
fn an_index_variable_is_found(rt: HostRuntime) -> Result<(), SourceFault> {
    let steps = steps(rt.alloc(), INDICES.as_bytes())?;
    holds(&rt, steps.find(1, b"j") == Some(1), INDICES);
    Ok(())
}

#[test]
fn a_step_has_its_place(rt: HostRuntime) -> Result<(), SourceFault> {
    let steps = steps(rt.alloc(), SWITCHES.as_bytes())?;
    let place = match steps.standings.get(3) {
        Some(standing) => Some(standing.place),
        None => None,
    };
    holds(&rt, place == Some(Place { line: 1, col: 55 }), SWITCHES);
    Ok(())
}
