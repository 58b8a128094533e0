//! Reports through writers that fail or take little, and sources that have none. The place is a column of line 1.
use crate::told::{holds, holds_at};
use gang_model::{RefusalNumber, SourceRefusal};
use gang_types::Place;
use ispc_refusals::Refusal;
use lane_report::report;
use std::alloc::Global;
use tests_devices::PieceWriter;
use transcript::Ending;

/// A function that calls itself, one with a sum across lanes, and a caller of both.
const SOURCE: &[u8] = b"int f(int k) {\nif (k > 1) return k;\nreturn f(k + 1);\n}\n\
    int sum(int x) { return reduce_add(x); }\n\
    export void go() { int x = f(programIndex); int y = sum(x); }\n";

const LINES: &[u8] = b"lane-pure 1:5 f: yes\nlane-pure 5:5 sum: no\nlane-pure 6:13 go: no\n";

/// Whether the report ends so, through a writer that takes so many bytes at a time and in all, and has written this text.
fn reports(alloc: Global, taken: usize, room: usize, wanted: Ending, text: &[u8]) -> bool {
    let mut writer = PieceWriter::new(taken, room);
    let end = report(alloc, SOURCE, &mut writer);
    end == Ok(wanted) && writer.bytes() == text
}

#[test]
fn reports_through_any_writer(rt: HostRuntime) {
    for &most in &[1, 2, 7, 29, 512] {
        let is_so = reports(rt.alloc(), most, 1000, Ending::EndOfCommands, LINES);
        holds_at(&rt, is_so, "pieces", most);
    }
}

#[test]
fn stops_a_report_at_a_failed_write(rt: HostRuntime) {
    for room in 0..LINES.len() {
        let is_so = reports(rt.alloc(), 3, room, Ending::WriteFault, &LINES[..room]);
        holds_at(&rt, is_so, "a failed write", room);
    }
}

/// Whether a source is refused with this number at this column, and nothing is written.
fn is_refused(alloc: Global, source: &[u8], number: RefusalNumber, col: u32) -> bool {
    let place = Place { line: 1, col };
    let mut writer = PieceWriter::new(512, 512);
    let end = report(alloc, source, &mut writer);
    end == Err(Refusal::Source(SourceRefusal { number, place })) && writer.calls() == 0
}

const REFUSED: &[(&str, RefusalNumber, u32)] = &[
    ("void f() { ` }", RefusalNumber::S1, 12),
    ("void f() { x = 1 }", RefusalNumber::S3, 18),
    ("void f() { } void g() { x = 1; }", RefusalNumber::S5, 25),
    ("void v; void f() { }", RefusalNumber::S8, 6),
];

#[test]
fn writes_nothing_of_a_refused_source(rt: HostRuntime) {
    for &(source, number, col) in REFUSED {
        let is_so = is_refused(rt.alloc(), source.as_bytes(), number, col);
        holds(&rt, is_so, source);
    }
}
