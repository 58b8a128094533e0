//! How a test ends: its case is named, in one function for all, since each assertion is written out where it stands.
use gang_model::{RefusalNumber, SourceRefusal};
use gang_types::Place;
use std::process::Abort;

/// Ends the test where the case that is named is not so.
pub fn holds(rt: &impl Abort, is_so: bool, case: &str) {
    assert!(rt; is_so, "{case}");
}

/// Ends the test where a row of its table is not so: what it is of, and the step or the variable at which it stands.
pub fn holds_at(rt: &impl Abort, is_so: bool, case: &str, number: usize) {
    assert!(rt; is_so, "{case}, at {number}");
}

/// The refusal of this number at a column of line 1.
pub fn refused(number: RefusalNumber, col: u32) -> SourceRefusal {
    let place = Place { line: 1, col };
    SourceRefusal { number, place }
}
