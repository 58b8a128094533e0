//! The library's calls across the lanes of a gang: reductions, scans and shuffles, one word for each lane
//! (ISPC User's Guide, "Cross-Program Instance Operations").
//!
//! A mask says which lanes make the call. A lane outside it counts as 0, whatever its word, and its result is 0.
//! Where lanes of the mask name a lane that the gang does not have, the lowest of them has the fault.
//! Both are choices of this project, as is the width of a sum.
#![tactic(auto)]

mod active;
mod folds;
mod packed;
mod reductions;
mod scans;
mod shuffles;
mod windows;

pub use active::{active_words, lane_numbers};
pub use packed::packed_places;
pub use reductions::{
    all, any, lanemask, none, packmask, popcnt_lanes, reduce_add, reduce_equal, reduce_max,
    reduce_min,
};
pub use scans::{exclusive_scan_add, exclusive_scan_and, exclusive_scan_or};
pub use shuffles::{broadcast, extract, insert, rotate, shift, shuffle, shuffle_two};
