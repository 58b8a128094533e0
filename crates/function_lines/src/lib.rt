//! The lines of a program's functions, by their names.
#![tactic(auto)]

mod lines;

pub use lines::function_line;
