//! The seam at which a machine computes expressions in its frames.
#![tactic(auto)]

mod machine;

pub use machine::{ExpressionMachine, LaneWords};
