//! The tokens of a source.
#![tactic(auto)]

mod letters;
mod marks;
mod numbers;
mod pieces;
mod places;
mod source;
mod token;

pub use places::source_end;
pub use source::tokens;
pub use token::{Kind, Number, Token};
