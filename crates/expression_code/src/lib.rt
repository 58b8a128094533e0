//! Expressions as flat code for the machine of `expression_runs`.
#![tactic(auto)]

mod emission;
mod operands;

pub use emission::compile;
