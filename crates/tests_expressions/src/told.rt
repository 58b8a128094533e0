//! How a test ends: its case is named, in one function for all, since each assertion is written out where it stands.
use std::process::Abort;

/// Ends the test where the case that is named is not so.
pub fn holds(rt: &impl Abort, is_so: bool, case: &str) {
    assert!(rt; is_so, "{case}");
}
