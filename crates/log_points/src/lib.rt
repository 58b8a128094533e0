//! Breakpoints that write a text in place of stopping.
#![tactic(auto)]

mod going;
mod points;
mod texts;
mod writing;

pub use going::{WroteOn, continue_writing};
pub use points::{Logs, MOST_TEXTS, Written};
pub use writing::write_here;
