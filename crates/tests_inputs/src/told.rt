//! How a test ends: its case is named, in one function for all, since each assertion is written out where it stands.
use std::process::Abort;

/// Ends the test where the case that is named is not so.
pub fn holds(rt: &impl Abort, is_so: bool, case: &str) {
    assert!(rt; is_so, "{case}");
}

/// Ends the test where what an input of a source gives is not so.
pub fn holds_for(rt: &impl Abort, is_so: bool, source: &str, input: &str) {
    assert!(rt; is_so, "{source}: {input}");
}
