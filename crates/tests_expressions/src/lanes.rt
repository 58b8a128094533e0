//! Expressions over the lanes of wider gangs, and elements of arrays.
use crate::placed::words_of;
use crate::store::Memory;
use crate::told::holds;
use expression_runs::Stop;
use gang_types::FaultName;

const SOURCE: &str = "uniform int16 table[3]; export void go() { int32 v = 0; }";

/// The step at the closing brace.
const CLOSING: usize = 1;

/// The values of 8 lanes: of all, and of the lanes 1 and 3 alone, where the others have 0.
const OF_EIGHT: &[(&str, u64, [u64; 8])] = &[
    ("programIndex * 2", 0b1111_1111, [0, 2, 4, 6, 8, 10, 12, 14]),
    (
        "reduce_add(v)",
        0b1111_1111,
        [36, 36, 36, 36, 36, 36, 36, 36],
    ),
    ("rotate(v, 1)", 0b1111_1111, [2, 3, 4, 5, 6, 7, 8, 1]),
    (
        "exclusive_scan_add(v)",
        0b1111_1111,
        [0, 1, 3, 6, 10, 15, 21, 28],
    ),
    ("reduce_add(v)", 0b1010, [0, 6, 0, 6, 0, 0, 0, 0]),
    ("programCount", 0b1010, [0, 8, 0, 8, 0, 0, 0, 0]),
];

#[test]
fn eight_lanes_have_values(rt: HostRuntime) {
    let memory = Memory {
        locals: &[[1, 2, 3, 4, 5, 6, 7, 8]],
        arrays: &[],
    };
    for &(text, lanes, wanted) in OF_EIGHT {
        let found = words_of(rt.alloc(), SOURCE, CLOSING, text, &memory, lanes);
        holds(&rt, found == Ok(Ok(wanted)), text);
    }
}

#[test]
fn sixteen_lanes_have_values(rt: HostRuntime) {
    let memory = Memory {
        locals: &[[1; 16]],
        arrays: &[],
    };
    let text = "exclusive_scan_add(v) + programCount";
    let found = words_of(rt.alloc(), SOURCE, CLOSING, text, &memory, 0xffff);
    let wanted = [
        16, 17, 18, 19, 20, 21, 22, 23, 24, 25, 26, 27, 28, 29, 30, 31,
    ];
    holds(&rt, found == Ok(Ok(wanted)), text);
}

#[test]
fn elements_are_read_at_indices(rt: HostRuntime) {
    let memory = Memory {
        locals: &[[2, 0, 1, 2]],
        arrays: &[&[7, 8, u64::MAX]],
    };
    let found = words_of(rt.alloc(), SOURCE, CLOSING, "table[v]", &memory, 0b1111);
    let wanted = [u64::MAX, 7, 8, u64::MAX];
    holds(&rt, found == Ok(Ok(wanted)), "table[v]");
    let found = words_of(rt.alloc(), SOURCE, CLOSING, "table[v + 1]", &memory, 0b1111);
    let fault = Err(Stop::Fault((0, FaultName::Index)));
    holds(&rt, found == Ok(fault), "table[v + 1]");
}
