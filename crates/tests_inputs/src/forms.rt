//! What a line and a value may look like.
use crate::read::{Fault, is_refused, is_row, rows};
use crate::told::holds;
use gang_types::VarId;

const SOURCE: &[u8] = b"export void go(uniform int n) { }";

// Inputs that give n a word and nothing else: blanks anywhere between the words, and values in their spellings.
const GIVEN: &[(&str, u64)] = &[
    ("n=7", 7),
    (" \t n \t= 7 \t ", 7),
    ("n = 7\r\n\r\n", 7),
    ("\n\n  \t\n# n = 1\n#\nn = 7", 7),
    ("n = 0x7fFFffff", 2_147_483_647),
    ("n = -1", u64::MAX),
    ("n = -0", 0),
    ("n = 007", 7),
    ("n = 000000000000000000000000000000000000000012", 12),
    ("n = true", 1),
    ("n = false", 0),
];

#[test]
fn lines_and_values_in_their_spellings(rt: HostRuntime) {
    for &(input, word) in GIVEN {
        let found = rows(rt.alloc(), SOURCE, input.as_bytes());
        holds(&rt, is_row(&found, VarId::Local(0), &[word]), input);
    }
}

// Inputs with the line that is no row, or has a word that is no value.
const BAD: &[(&str, u32)] = &[
    ("n", 1),
    ("n 7", 1),
    ("n =", 1),
    ("n = 7 7", 1),
    ("= 7", 1),
    ("n == 7", 1),
    ("\n # n = 7", 2),
    ("n = -0x1", 1),
    ("n = 0X1", 1),
    ("n = 0x", 1),
    ("n = 0xg", 1),
    ("n = -", 1),
    ("n = - 1", 1),
    ("n = --1", 1),
    ("n = +1", 1),
    ("n = 1a", 1),
    ("n = True", 1),
];

#[test]
fn lines_that_are_no_rows_and_words_that_are_no_values(rt: HostRuntime) {
    for &(input, line) in BAD {
        let is_so = is_refused(rt.alloc(), SOURCE, input.as_bytes(), Fault::BadLine(line));
        holds(&rt, is_so, input);
    }
}
