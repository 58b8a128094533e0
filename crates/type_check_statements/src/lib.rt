//! The typed form of statements, and their faults S7 to S10.
#![tactic(auto)]

mod body;
mod statements;

pub use body::typed_body;
