//! The statements of a source, by descent.
#![tactic(auto)]

mod statements;

pub use statements::stmts;
