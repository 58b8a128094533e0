//! Tokens of short sources, and where a source is refused.
use crate::marks::MARKS;
use crate::told::holds;
use gang_model::RefusalNumber::{S1, S2, S13};
use gang_model::{Mark, RefusalNumber, SourceRefusal};
use gang_types::Place;
use ispc_lexer::{Kind, Token, source_end, tokens};
use source_answers::SourceFault;
use std::alloc::Global;

/// A token's kind, with a name's bytes lent.
#[derive(Clone, Copy, Drop)]
enum Spelled<'a> {
    Name(&'a [u8]),
    /// Its value, and whether it is unsigned and long.
    Number(u64, bool, bool),
    Mark(Mark),
}

use Spelled::{Name, Number};

fn is_kind(kind: &Kind, wanted: &Spelled) -> bool {
    match (kind, wanted) {
        (Kind::Name(name), Name(text)) => name.as_slice() == *text,
        (Kind::Number(number), Number(value, is_unsigned, is_long)) => {
            number.value == *value
                && number.is_unsigned == *is_unsigned
                && number.is_long == *is_long
        }
        (Kind::Mark(mark), Spelled::Mark(other)) => *mark == *other,
        _ => false,
    }
}

/// A kind, where its token starts and ends, its line and its column.
#[derive(Clone, Copy, Drop)]
struct Row<'a>(Spelled<'a>, usize, usize, u32, u32);

fn is_token(token: &Token, row: &Row) -> bool {
    let Row(kind, start, end, line, col) = row;
    is_kind(&token.kind, kind)
        && token.start == *start
        && token.end == *end
        && token.place.line == *line
        && token.place.col == *col
}

/// Whether the source has these tokens, and no others.
fn reads(alloc: Global, source: &[u8], rows: &[Row]) -> bool {
    match tokens(alloc, source) {
        Ok(found) => found.len() == rows.len()
            && found
                .iter()
                .zip(rows)
                .all(|(token, row)| is_token(token, row)),
        Err(_) => false,
    }
}

/// Whether the source is one token of this kind.
fn is_one(alloc: Global, source: &[u8], kind: Spelled) -> bool {
    reads(alloc, source, &[Row(kind, 0, source.len(), 1, 1)])
}

fn is_refused(alloc: Global, source: &[u8], number: RefusalNumber, line: u32, col: u32) -> bool {
    match tokens(alloc, source) {
        Err(SourceFault::Refused(refusal)) => refusal
            == SourceRefusal {
                number,
                place: Place { line, col },
            },
        _ => false,
    }
}

// Sources and all their tokens: the longest marks, comments and lines, and words of which a mark is a part.
const SOURCES: &[(&str, &[u8], &[Row])] = &[
    (
        "a mark of three",
        b"a<<=b",
        &[
            Row(Name(b"a"), 0, 1, 1, 1),
            Row(Spelled::Mark(Mark::ShiftLeftAssign), 1, 4, 1, 2),
            Row(Name(b"b"), 4, 5, 1, 5),
        ],
    ),
    (
        "marks of two and of one",
        b"x+++y",
        &[
            Row(Name(b"x"), 0, 1, 1, 1),
            Row(Spelled::Mark(Mark::PlusPlus), 1, 3, 1, 2),
            Row(Spelled::Mark(Mark::Plus), 3, 4, 1, 4),
            Row(Name(b"y"), 4, 5, 1, 5),
        ],
    ),
    (
        "dots between numbers",
        b"0...5",
        &[
            Row(Number(0, false, false), 0, 1, 1, 1),
            Row(Spelled::Mark(Mark::Dots), 1, 4, 1, 2),
            Row(Number(5, false, false), 4, 5, 1, 5),
        ],
    ),
    (
        "comments and lines",
        b"/* \xff\n*/ int_x // \"\n\tint/**/x;\r\n//",
        &[
            Row(Name(b"int_x"), 8, 13, 2, 4),
            Row(Spelled::Mark(Mark::Int), 20, 23, 3, 2),
            Row(Name(b"x"), 27, 28, 3, 9),
            Row(Spelled::Mark(Mark::Semicolon), 28, 29, 3, 10),
        ],
    ),
    (
        "a comment of one star",
        b"/*/ * / **/a",
        &[Row(Name(b"a"), 11, 12, 1, 12)],
    ),
    ("blanks", b" \t\r\n", &[]),
    ("nothing", b"", &[]),
    (
        "longer words than marks",
        b"If foreach_",
        &[
            Row(Name(b"If"), 0, 2, 1, 1),
            Row(Name(b"foreach_"), 3, 11, 1, 4),
        ],
    ),
];

#[test]
fn tokens_have_their_kinds_and_places(rt: HostRuntime) {
    for &(what, source, rows) in SOURCES {
        holds(&rt, reads(rt.alloc(), source, rows), what);
    }
}

#[test]
fn ends(rt: HostRuntime) {
    holds(
        &rt,
        source_end(b"") == Place { line: 1, col: 1 },
        "the end of nothing",
    );
    holds(
        &rt,
        source_end(b"a\n\n b") == Place { line: 3, col: 3 },
        "the end of three lines",
    );
}

// Numbers with their values, and whether they are unsigned and long.
const NUMBERS: &[(&str, u64, bool, bool)] = &[
    ("0", 0, false, false),
    ("0u", 0, true, false),
    ("4ul", 4, true, true),
    ("4LuL", 4, true, true),
    ("907ll", 907, false, true),
    ("907LU", 907, true, true),
    ("0x00fF", 255, false, false),
    ("0XaBl", 171, false, true),
    ("0b0101", 5, false, false),
    ("0B11uLL", 3, true, true),
    ("0x0b1", 177, false, false),
    ("18446744073709551615", 18446744073709551615, false, false),
    ("0xffffffffffffffff", 18446744073709551615, false, false),
    (
        "0b0000000000000000000000000000000000000000000000000000000000000000001",
        1,
        false,
        false,
    ),
];

#[test]
fn numbers(rt: HostRuntime) {
    for &(text, value, is_unsigned, is_long) in NUMBERS {
        let kind = Number(value, is_unsigned, is_long);
        holds(&rt, is_one(rt.alloc(), text.as_bytes(), kind), text);
    }
}

// What begins as a number and is none.
const BAD_NUMBERS: &[&str] = &[
    "08",
    "00",
    "1uu",
    "1uLU",
    "1lll",
    "1lul_",
    "0b12",
    "0b",
    "0x",
    "0xu",
    "0xg",
    "1e5",
    "9_",
    "18446744073709551616",
    "0x10000000000000000",
];

#[test]
fn bad_numbers(rt: HostRuntime) {
    for text in BAD_NUMBERS {
        let is_so = is_refused(rt.alloc(), text.as_bytes(), S2, 1, 1);
        holds(&rt, is_so, text);
    }
}

// The first fault of a source: its number, its line and its column.
const FIRST_FAULTS: &[(&str, RefusalNumber, u32, u32)] = &[
    ("1....2", S1, 1, 5),
    ("/* x", S1, 1, 1),
    ("a /*/", S1, 1, 3),
    ("int x = 1.5;", S1, 1, 10),
    ("a;\n\n  b@ 08", S1, 3, 4),
    ("a;\n\n  08 @", S2, 3, 3),
    ("a\x00", S1, 1, 2),
    ("\"", S1, 1, 1),
];

#[test]
fn first_faults(rt: HostRuntime) {
    for &(text, number, line, col) in FIRST_FAULTS {
        let is_so = is_refused(rt.alloc(), text.as_bytes(), number, line, col);
        holds(&rt, is_so, text);
    }
}

#[test]
fn sizes(rt: HostRuntime) {
    let blanks = [b' '; 65537];
    holds(
        &rt,
        is_refused(rt.alloc(), &blanks, S13, 1, 1),
        "65,537 blanks",
    );
    holds(&rt, reads(rt.alloc(), &blanks[1..], &[]), "65,536 blanks");
}

#[test]
fn every_mark(rt: HostRuntime) {
    for &(text, wanted) in MARKS {
        let kind = Spelled::Mark(wanted);
        holds(&rt, is_one(rt.alloc(), text.as_bytes(), kind), text);
    }
}
