//! Where a program stands at a moment.
use gang_types::{Mask, Place};

/// Where the next step is: its place, the number of its function, how many frames there are, and the active lanes.
#[derive(Clone, Copy, Debug)]
pub(crate) struct Stand {
    pub(crate) place: Place,
    pub(crate) function: usize,
    pub(crate) depth: usize,
    pub(crate) lanes: Mask,
}

/// The place of a call, and the number of the function that it is in.
#[derive(Clone, Copy, Debug, PartialEq, Eq)]
pub(crate) struct Call {
    pub(crate) place: Place,
    pub(crate) function: usize,
}

/// A moment: how many steps were done before it, of those that were tried; where the program stands, unless it has ended; how many of
/// the calls of the moment before are there still, counted from the entry's; and where the calls and the changes begin and end that it
/// adds.
#[derive(Clone, Copy, Debug)]
pub(crate) struct Moment {
    pub(crate) taken: usize,
    pub(crate) stand: Option<Stand>,
    pub(crate) kept_calls: usize,
    pub(crate) first_call: usize,
    pub(crate) end_of_calls: usize,
    pub(crate) first_change: usize,
    pub(crate) end_of_changes: usize,
}
