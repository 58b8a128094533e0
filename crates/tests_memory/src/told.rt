//! How a test ends: what does not hold is named, in one function for all, since each assertion is written out where it stands.
ghost use Rattle.std.specs.Prelude.{◌≡◌, true};

use std::process::Abort;

/// Ends the test where what is named does not hold.
pub fn holds(rt: &impl Abort, is_so: bool, what: &str)
    ensures { is_so ≡ true }
{
    assert!(rt; is_so, "{what}");
}

/// Ends the test where what is named does not hold by a mask, of a part of a length.
pub fn holds_by_mask(rt: &impl Abort, is_so: bool, what: &str, word: u64, len: usize) {
    assert!(rt; is_so, "{what} by mask {word} of {len}");
}

/// Ends the test where what is named does not hold at an index, of a part of a length.
pub fn holds_at_index(rt: &impl Abort, is_so: bool, what: &str, index: i128, len: usize) {
    assert!(rt; is_so, "{what} at {index} of {len}");
}
