//! Readers and writers for tests: they give and take few bytes at a time, and fail where they are told to.
#![tactic(auto)]

mod listeners;
mod readers;
mod writers;

pub use listeners::Listener;
pub use readers::{BlankReader, PieceReader};
pub use writers::PieceWriter;
