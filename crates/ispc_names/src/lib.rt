//! A tree without faults of names, with what is in scope at each step of its functions.
#![tactic(auto)]

mod file_variables;
mod named;
mod resolution;

pub use named::Named;
pub use resolution::resolve;
