//! Command lines, and the commands that they spell.
#![tactic(auto)]

mod command;
mod numbers;
mod reading;
mod table;
mod targets;
mod words;

pub use command::{Command, Target};
pub use reading::read_command;
