//! Inputs that a run is refused for, each with its text, and the first of two faults.
use crate::inputs::SOURCE;
use crate::running::is_refused_for;
use crate::told::holds;
use std::alloc::{AllocError, Global};
use std::process::Abort;

/// Each input of the source is refused with its text.
fn are_refused(rt: &impl Abort, alloc: Global, source: &[u8], rows: &[(&str, &str)]) {
    for &(input, text) in rows {
        let is_so = is_refused_for(alloc, source, input.as_bytes(), text.as_bytes());
        holds(rt, is_so, input);
    }
}

const EACH_FAULT: &[(&str, &str)] = &[
    ("n = 1\nn = 1", "input 2: I1 BadLine\n"),
    ("t = 1\r\nt = 2\r\n", "input 2: I1 BadLine\n"),
    ("z = 1", "input 1: I1 BadLine\n"),
    ("go = 1", "input 1: I1 BadLine\n"),
    ("n =", "input 1: I1 BadLine\n"),
    ("n = 1 2", "input 1: I1 BadLine\n"),
    ("n 1", "input 1: I1 BadLine\n"),
    ("\n\n # n = 1", "input 3: I1 BadLine\n"),
    ("t = 1 2 3 4", "input 1: I4 TooLarge\n"),
    ("t = 1 2 3 200", "input 1: I4 TooLarge\n"),
    ("\nt = 128", "input 2: I3 Range\n"),
    ("n = 2147483648", "input 1: I3 Range\n"),
    ("a = 1 -2147483649", "input 1: I3 Range\n"),
    ("", "input: I2 Missing n\n"),
    ("a =", "input: I2 Missing n\n"),
    ("n = 1\nt =\n", "input: I2 Missing a\n"),
];

#[test]
fn each_fault_of_an_input_is_told(rt: HostRuntime) {
    are_refused(&rt, rt.alloc(), SOURCE, EACH_FAULT);
}

const TWO_FAULTS: &[(&str, &str)] = &[
    ("z = 1\nn = 3000000000", "input 1: I1 BadLine\n"),
    ("n = 3000000000\nz = 1", "input 1: I3 Range\n"),
    ("z = 1\nt = 1 2 3 4", "input 1: I1 BadLine\n"),
    ("t = 1 2 3 4\nz = 1", "input 1: I4 TooLarge\n"),
    ("n = 3000000000\nt = 1 2 3 4", "input 1: I3 Range\n"),
    ("t = 1 2 3 4\nn = 3000000000", "input 1: I4 TooLarge\n"),
    ("n = 1\nz = 1", "input 2: I1 BadLine\n"),
    ("n = 1\nt = 128", "input 2: I3 Range\n"),
    ("n = 1\nt = 1 2 3 4", "input 2: I4 TooLarge\n"),
    ("t = 1 2 3 4 x", "input 1: I1 BadLine\n"),
    ("t = 128 x", "input 1: I1 BadLine\n"),
    ("n = 3000000000 1", "input 1: I1 BadLine\n"),
];

#[test]
fn the_first_of_two_faults_is_told(rt: HostRuntime) {
    are_refused(&rt, rt.alloc(), SOURCE, TWO_FAULTS);
}

const OTHER_VARIABLES: &[u8] =
    b"const uniform int c = 1;\nint v = 1;\nuniform bool b;\nexport void go() { int x; }\n";

const NOT_GIVEN: &[(&str, &str)] = &[
    ("c = 1", "input 1: I1 BadLine\n"),
    ("v = 1", "input 1: I1 BadLine\n"),
    ("x = 1", "input 1: I1 BadLine\n"),
    ("b = 2", "input 1: I3 Range\n"),
    ("b = true\nb = true", "input 2: I1 BadLine\n"),
];

#[test]
fn variables_that_an_input_may_not_give(rt: HostRuntime) {
    are_refused(&rt, rt.alloc(), OTHER_VARIABLES, NOT_GIVEN);
}

// Sources with the text of what is refused of them, or of the input that is given.
const SOURCES: &[(&str, &str)] = &[
    ("export void go() { x = 1; }", "1:20: S5 UnknownName\n"),
    ("export void go(int n) { }", "1:20: S7 Rate\n"),
    ("void go() { }", "entry: E1 NoEntry\n"),
    ("export void go() { }", "input 1: I1 BadLine\n"),
];

#[test]
fn the_source_is_judged_first_and_then_the_entry(rt: HostRuntime) {
    for &(source, text) in SOURCES {
        let is_so = is_refused_for(rt.alloc(), source.as_bytes(), b"n = 1", text.as_bytes());
        holds(&rt, is_so, source);
    }
}

/// An input of one array, whose row has as many values as a power of 2.
fn many_values(alloc: Global, doublings: usize) -> Result<Vec<u8>, AllocError> {
    let mut values = b"1 ".to_vec(alloc)?;
    for _ in 0..doublings {
        let half = values.as_slice().to_vec(alloc)?;
        values.extend_from_slice(&half)?;
    }
    let mut input = b"n = 0\na = ".to_vec(alloc)?;
    input.extend_from_slice(&values)?;
    Ok(input)
}

#[test]
fn the_arrays_of_an_entry_have_at_most_1_048_576_words(rt: HostRuntime) -> Result<(), AllocError> {
    let mut input = many_values(rt.alloc(), 20)?;
    input.push(b'1')?;
    let is_so = is_refused_for(rt.alloc(), SOURCE, &input, b"input 2: I4 TooLarge\n");
    holds(&rt, is_so, "1,048,577 words");
    Ok(())
}
