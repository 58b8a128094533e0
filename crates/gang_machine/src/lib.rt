//! A machine that runs a compiled program step by step, and takes steps back.
#![tactic(auto)]

mod again;
mod expressions;
mod frames;
mod lanes;
mod machine;
mod mover;
mod opening;
mod stores;

pub use machine::Machine;
pub use opening::{PreparedProgram, open};
