//! Nodes of expressions as they are written, each in a box.
#![tactic(auto)]

mod args;
mod nodes;

pub use args::{part, part_from, value_arg};
pub use nodes::{binary, call, cast, choice, index, name, number, paren, truth, unary};
