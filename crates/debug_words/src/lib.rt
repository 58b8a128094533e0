//! The words of a line of commands or of an input, and the numbers that words spell.
#![tactic(auto)]

mod numbers;
mod splitting;

pub use numbers::{Radix, digits_number};
pub use splitting::{Marks, is_blank, is_blank_line, is_digit, is_same, next_word};
