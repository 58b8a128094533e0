//! The digits in which people ask for values.
#![tactic(auto)]

mod digits;
mod words;

pub use digits::{Digits, digits_of};
pub use words::{bits_of, byte_type, digits_text, is_printed, letter_of};
