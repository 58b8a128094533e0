//! Trees whose names are resolved and whose conversions are written out.
#![tactic(auto)]

mod expressions;
mod program;
mod statements;

pub use expressions::{Expr, OneCall, Reduction, Scan, TwoCall, Var};
pub use program::{Function, Global, Program, Variable};
pub use statements::{Arg, Dimension, ResultFor, Rounds, Segment, Stmt, Target};
