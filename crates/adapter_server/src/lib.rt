//! A server of the Debug Adapter Protocol: requests from a reader, replies and events on a writer.
#![tactic(auto)]

mod connection;
mod effects;
mod events;
mod files;
mod launching;
mod opening;
mod serving;
mod spelling;
mod telling;
mod threads;
mod writing;

pub use connection::{Connection, Ended};
pub use files::{FileFinder, FileNumber};
pub use launching::LaunchMessage;
pub use serving::Served;
