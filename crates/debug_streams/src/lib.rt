//! std's readers and writers as the devices of a run.
#![tactic(auto)]

mod reader;
mod writer;

pub use reader::StreamReader;
pub use writer::StreamWriter;
