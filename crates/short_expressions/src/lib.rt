//! The value of an expression by its code, without the stacks that any expression finds room on where a few vectors are enough.
#![tactic(auto)]

mod few;
mod value;

pub use value::value_of;
