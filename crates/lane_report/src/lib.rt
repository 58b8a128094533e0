//! Which functions of a source are lane-pure, a line for each.
#![tactic(auto)]

mod judging;
mod lines;
mod reporting;

pub use reporting::report;
