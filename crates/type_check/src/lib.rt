//! The typed program of a whole tree, and the faults of its types.
#![tactic(auto)]

mod checked;
mod entry;
mod globals;
mod purity;
mod typed;

pub use checked::{Checked, check};
pub use entry::entry_of;
pub use purity::{is_lane_pure, lane_pure_functions};
pub use typed::typed_program;
