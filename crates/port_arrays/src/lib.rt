//! Constant expressions of a ported source, and arrays with their sizes and values.
#![tactic(auto)]

mod arrays;
mod constants;
mod operators;
mod tables;

pub use arrays::{Form, array_form, push_array, put_array};
pub use constants::{constant, is_unsigned_type, push_folded};
pub use tables::push_values;
