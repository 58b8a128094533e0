//! What is in scope at each step of a function, found from its tree.
#![tactic(auto)]

mod declared;
mod function;
mod returns;
mod statements;

pub use function::steps_of;
