//! Expressions of a ported source. What they call or change comes before the statement that they stand in.
#![tactic(auto)]

mod before;
mod elements;
mod expressions;
mod forms;

pub use before::arm_statement;
pub use elements::put_lane;
pub use expressions::{call, expression, target};
