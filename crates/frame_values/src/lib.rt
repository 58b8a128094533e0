//! The values of expressions that people write, where a frame of a running program stands.
#![tactic(auto)]

mod values;

pub use values::{ExpressionValue, NoValue, value_of_expression};
