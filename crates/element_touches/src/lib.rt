//! The elements of an array that lanes touch together, and what is counted of them.
#![tactic(auto)]

mod counts;
mod orders;
mod touches;

pub use counts::AccessCounts;
pub use orders::{different, is_consecutive, is_equal};
pub use touches::{Elements, touched};
