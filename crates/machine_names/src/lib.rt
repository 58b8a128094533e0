//! What the names, numbers and lines of a program stand for, where it stands at a step.
#![tactic(auto)]

mod breakpoint_lines;
mod listing;
mod names;

pub use breakpoint_lines::{least_from, step_lines};
pub use listing::{ListedKind, next_listed};
pub use names::{file_named, file_number, local_named, named};
