//! How a test ends: its case is named, in one function for all, since each assertion is written out where it stands.
use gang_model::{RefusalNumber, SourceRefusal};
use gang_types::Place;
use source_answers::SourceFault;
use std::process::Abort;

/// Ends the test where the case that is named is not so.
pub fn holds(rt: &impl Abort, is_so: bool, case: &str) {
    assert!(rt; is_so, "{case}");
}

/// Ends the test where the case that is named, by a variable's type and statements, is not so.
pub fn holds_for(rt: &impl Abort, is_so: bool, spec: &str, statements: &str) {
    assert!(rt; is_so, "{spec}: {statements}");
}

/// Ends the test where a row of its table, of which the first is 0, is not so.
pub fn holds_in_row(rt: &impl Abort, is_so: bool, row: usize) {
    assert!(rt; is_so, "row {row}");
}

/// The refusal of this number at a column of line 1.
pub fn refused(number: RefusalNumber, col: u32) -> SourceFault {
    let place = Place { line: 1, col };
    SourceFault::Refused(SourceRefusal { number, place })
}
