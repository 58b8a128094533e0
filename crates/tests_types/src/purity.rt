//! Which functions of a source are lane-pure. Answers are bits, that of the first function the lowest.
use crate::told::holds;
use gang_types::FuncId;
use ispc_lexer::{source_end, tokens};
use ispc_names::resolve;
use ispc_parser::parse;
use source_answers::SourceFault;
use std::alloc::Global;
use type_check::{Checked, check, is_lane_pure, lane_pure_functions};

/// The typed program of a source.
fn checked(alloc: Global, source: &[u8]) -> Result<Checked, SourceFault> {
    let tokens = tokens(alloc, source)?;
    let tree = parse(alloc, &tokens, source_end(source))?;
    check(alloc, resolve(alloc, tree)?)
}

/// The same bits by the answers for all functions at once.
fn all_pure(alloc: Global, source: &[u8]) -> Result<u8, SourceFault> {
    let checked = checked(alloc, source)?;
    let mut bits = 0u8;
    let mut bit = 1u8;
    for is_pure in &lane_pure_functions(alloc, &checked)? {
        if *is_pure {
            bits |= bit;
        }
        bit = bit.wrapping_mul(2);
    }
    Ok(bits)
}

/// A bit for each function of a source, set where the function is lane-pure.
fn pure(alloc: Global, source: &[u8]) -> Result<u8, SourceFault> {
    let checked = checked(alloc, source)?;
    let mut bits = 0u8;
    let mut bit = 1u8;
    for number in 0..checked.program().functions.len() {
        if is_lane_pure(alloc, &checked, FuncId(number))? {
            bits |= bit;
        }
        bit = bit.wrapping_mul(2);
    }
    Ok(bits)
}

// Sources with the bits of their lane-pure functions.
const PURE: &[(&str, u8)] = &[
    // Recursion over varying values is pure.
    (
        "int f(int k) { int r = k + 1; if (k > 1) return r; return f(r); } export void go() { int x = f(programIndex); int y = f(2); }",
        0b11,
    ),
    (
        "int f(int k) { if (k > 9) return k; return g(k + 1); } int g(int k) { return f(k + 1); }",
        0b11,
    ),
    // What is called counts, and not what calls.
    (
        "int f(int k) { return k; } int g(int k) { int n = programCount; return f(n); } void h() { int x = g(1); }",
        0b001,
    ),
    (
        "int f(int k) { if (k > 9) return k; return g(k); } int g(int k) { if (any(k > 0)) return 1; return f(k); }",
        0b00,
    ),
    // Arrays are read and not stored to.
    (
        "uniform int a[8]; int f(int i) { return a[i & 7]; } void g(int i) { a[i] = 1; } int h(uniform int b[], int i) { return b[i]; }",
        0b101,
    ),
    // Calls of the library are of one lane.
    (
        "int f(int i) { return popcnt(i); } int g(int i) { return popcnt(i > 0); } int h(int i) { return clamp(abs(i), 0, max(i, min(i, 9))); } int k(int i) { return reduce_add(i); } int m(int i) { return select(i > 0, i, 1); }",
        0b10101,
    ),
    // Uniform scalars are barred, in branches that no lane takes also.
    (
        "uniform int u; int f(int i) { if (false) return programCount; return i; } int g(int i) { if (false) return u; return i; } int h(int i) { uniform int n = 1; return i; } int k(uniform int n) { return 1; } uniform int m() { return 1; }",
        0b00000,
    ),
    // Foreach forms are barred.
    (
        "int v; void f() { foreach (i = 0 ... 4) { v = i; } } void g() { foreach_active (i) { v = 1; } } void h() { for (int i = 0; i < 4; i++) { v += i; } }",
        0b100,
    ),
];

#[test]
fn functions_are_lane_pure_or_not(rt: HostRuntime) {
    for &(source, wanted) in PURE {
        holds(
            &rt,
            pure(rt.alloc(), source.as_bytes()) == Ok(wanted),
            source,
        );
        holds(
            &rt,
            all_pure(rt.alloc(), source.as_bytes()) == Ok(wanted),
            source,
        );
    }
}
