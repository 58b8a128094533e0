//! The parser that reads the tree of a source from tokens.
#![tactic(auto)]

mod parser;
mod source;

pub use parser::parse;
