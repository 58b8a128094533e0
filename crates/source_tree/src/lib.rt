//! The tree of a source as it is written: its functions and variables, statements and expressions.
#![tactic(auto)]

mod expressions;
mod tree;

pub use expressions::{Arg, Expr};
pub use tree::{Dim, Function, GlobalVariable, Item, Param, Segment, Stmt, Target, Tree};
