//! The variables of a function and its steps: which variables are in scope at each step.
#![tactic(auto)]

mod look_ups;
mod table;

pub use table::{Declaration, Standing, StepScopes};
