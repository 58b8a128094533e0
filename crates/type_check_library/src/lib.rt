//! The library's calls that stand in expressions: what each asks for, and what it gives.
#![tactic(auto)]

mod arguments;
mod called;
mod calls;
mod one_value;
mod three_values;
mod two_values;
mod types;
mod values;

pub use called::called_value;
