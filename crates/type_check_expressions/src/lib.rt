//! The typed form of expressions, and their faults S5 and S7 to S9.
#![tactic(auto)]

mod casts;
mod elements;
mod expressions;
mod named;
mod operands;
mod passed;
mod places;
mod values;

pub use expressions::{arguments, expression, given_value};
pub use places::first_of;
