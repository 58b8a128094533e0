//! What stands at the front of the tokens: marks, operators, and the words of a spec.
#![tactic(auto)]

mod front;
mod operators;
mod words;

pub use front::{after, begins, place_of, refused, take, unexpected};
pub use operators::{operator_at, right_levels, truth_of, unary_op};
pub use words::{begins_word, spec_words, take_cast_spec, take_spec};
