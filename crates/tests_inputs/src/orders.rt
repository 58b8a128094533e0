//! Rows in the order of their lines, and the first of two refusals.
use crate::read::{Fault, has_row, is_refused, rows};
use crate::told::holds;
use debug_inputs::InputRow;
use gang_types::VarId;

const SOURCE: &[u8] =
    b"const uniform int c = 1; int v = 1; uniform int8 t[3]; uniform int w; export void go(uniform int n, uniform int a[]) { }";

fn are_in_order(rows: &[InputRow]) -> bool {
    rows.len() == 3
        && has_row(rows, 0, VarId::Local(1), &[5, 6, 7, 8])
        && has_row(rows, 1, VarId::File(2), &[1])
        && has_row(rows, 2, VarId::Local(0), &[2])
}

#[test]
fn rows_stand_in_the_order_of_their_lines(rt: HostRuntime) {
    let is_so = match &rows(rt.alloc(), SOURCE, b"a = 5 6 7 8\nt = 1\nn = 2\n") {
        Ok(rows) => are_in_order(rows),
        Err(_) => false,
    };
    holds(&rt, is_so, "three rows");
}

// Inputs with the fault that is told, which is the first of two where there are two.
const REFUSED: &[(&str, Fault<'static>)] = &[
    // The form comes before the room.
    ("t = 1 2 3 4 x", Fault::BadLine(1)),
    ("t = 1 2 3 4\nx", Fault::TooLarge(Some(1))),
    // The form comes before the range.
    ("t = 128 x", Fault::BadLine(1)),
    ("n = 2147483648 1", Fault::BadLine(1)),
    ("t = 128\nx", Fault::Range(1)),
    // The room comes before the range.
    ("t = 1 2 3 200", Fault::TooLarge(Some(1))),
    ("\nt = 200 1 2 3", Fault::TooLarge(Some(2))),
    ("t = 200\nw = 2147483648", Fault::Range(1)),
    // A missing parameter comes last.
    ("t = 128", Fault::Range(1)),
    ("a =", Fault::Missing(b"n")),
    ("n = 1", Fault::Missing(b"a")),
    ("", Fault::Missing(b"n")),
    // Names that have no row.
    ("n = 1\nn = 1", Fault::BadLine(2)),
    ("t =\n\nt =", Fault::BadLine(3)),
    ("z = 1", Fault::BadLine(1)),
    ("c = 1", Fault::BadLine(1)),
    ("v = 1", Fault::BadLine(1)),
    ("go = 1", Fault::BadLine(1)),
];

#[test]
fn the_first_of_two_refusals_is_told(rt: HostRuntime) {
    for &(input, wanted) in REFUSED {
        let is_so = is_refused(rt.alloc(), SOURCE, input.as_bytes(), wanted);
        holds(&rt, is_so, input);
    }
}
