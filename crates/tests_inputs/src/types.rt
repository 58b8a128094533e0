//! The ends of each type, and the numbers beyond them.
use crate::read::{Fault, is_refused, is_row, rows};
use crate::told::holds_for;
use gang_types::VarId;

const BOOL: &str = "export void go(uniform bool n) { }";

const INT8: &str = "export void go(uniform int8 n) { }";

const INT16: &str = "export void go(uniform int16 n) { }";

const INT: &str = "export void go(uniform int n) { }";

const INT64: &str = "export void go(uniform int64 n) { }";

const UINT8: &str = "export void go(uniform uint8 n) { }";

const UINT16: &str = "export void go(uniform uint16 n) { }";

const UINT32: &str = "export void go(uniform uint32 n) { }";

const UINT64: &str = "export void go(uniform uint64 n) { }";

// Inputs that give the parameter n of a source a word.
const GIVEN: &[(&str, &str, u64)] = &[
    (BOOL, "n = 0", 0),
    (BOOL, "n = 1", 1),
    (INT8, "n = -128", u64::MAX - 127),
    (INT8, "n = 127", 127),
    (INT16, "n = -32768", u64::MAX - 32_767),
    (INT16, "n = 32767", 32_767),
    (INT, "n = -2147483648", u64::MAX - 2_147_483_647),
    (INT, "n = 2147483647", 2_147_483_647),
    (INT64, "n = -9223372036854775808", 9_223_372_036_854_775_808),
    (INT64, "n = 9223372036854775807", 9_223_372_036_854_775_807),
    (UINT8, "n = 0xff", 255),
    (UINT16, "n = 65535", 65_535),
    (UINT32, "n = 4294967295", 4_294_967_295),
    (UINT64, "n = 18446744073709551615", u64::MAX),
];

#[test]
fn each_type_has_its_ends(rt: HostRuntime) {
    for &(source, input, word) in GIVEN {
        let found = rows(rt.alloc(), source.as_bytes(), input.as_bytes());
        let is_so = is_row(&found, VarId::Local(0), &[word]);
        holds_for(&rt, is_so, source, input);
    }
}

// Inputs with a number that the type of n has not.
const OUT_OF_RANGE: &[(&str, &str)] = &[
    (BOOL, "n = -1"),
    (BOOL, "n = 2"),
    (INT8, "n = -129"),
    (INT8, "n = 128"),
    (INT16, "n = -32769"),
    (INT16, "n = 32768"),
    (INT, "n = -2147483649"),
    (INT, "n = 0x80000000"),
    (INT64, "n = -9223372036854775809"),
    (INT64, "n = 9223372036854775808"),
    (UINT8, "n = -1"),
    (UINT8, "n = 256"),
    (UINT16, "n = -1"),
    (UINT16, "n = 65536"),
    (UINT32, "n = -1"),
    (UINT32, "n = 4294967296"),
    (UINT64, "n = -1"),
    (UINT64, "n = 18446744073709551616"),
    (UINT64, "n = -18446744073709551616"),
    (UINT64, "n = 0x10000000000000001"),
    (UINT64, "n = 36893488147419103233"),
];

#[test]
fn numbers_beyond_the_ends_are_refused(rt: HostRuntime) {
    for &(source, input) in OUT_OF_RANGE {
        let (source_bytes, input_bytes) = (source.as_bytes(), input.as_bytes());
        let is_so = is_refused(rt.alloc(), source_bytes, input_bytes, Fault::Range(1));
        holds_for(&rt, is_so, source, input);
    }
}
