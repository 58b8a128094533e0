//! The rows of an input: what they are for an entry that begins with them, and why those of an accepted input are so.
#![tactic(auto)]

mod row;

pub use row::InputRow;
