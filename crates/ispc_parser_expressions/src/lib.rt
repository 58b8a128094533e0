//! The parser that reads expressions from tokens.
#![tactic(auto)]

mod budget;
mod descent;
mod outermost;
mod reader;

pub use outermost::{arguments, expression};
