//! Expressions with their types and rates: joined types, conversions, and the type of each operation.
#![tactic(auto)]

mod boxes;
mod conversions;
mod operations;
mod rates;
mod typed;
mod types;

pub use boxes::{boxed_expr, boxed_stmt};
pub use conversions::{as_bool, as_type, right_operand};
pub use operations::{chosen_by, infixed, prefixed};
pub use rates::{is_varying, joined_rate, may_become};
pub use typed::Typed;
pub use types::{declared_rate, declared_type, joined, literal_type, operation_type, promoted};
