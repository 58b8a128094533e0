//! Expressions that are written at a step of a program: their types, and the code that computes them there.
#![tactic(auto)]

mod answers;
mod called;
mod placing;
mod reading;
mod scope;
mod unknown;

pub use answers::{ExpressionRefusal, PlacedExpression};
pub use placing::place_expression;
