//! Which steps of a program set a variable, by the tree.
#![tactic(auto)]

mod rounds;
mod setting;
mod variables;

pub use setting::sets;
pub use variables::is_same;
