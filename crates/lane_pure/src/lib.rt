//! The lane-pure functions of a typed program.
#![tactic(auto)]

mod callers;
mod expressions;
mod found;
mod functions;
mod signatures;
mod statements;

pub use functions::{is_pure_in_lanes, pure_functions};
