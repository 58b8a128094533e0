//! A script: a program's source and the commands for it, in one text.
#![tactic(auto)]

mod script;

pub use script::{MOST_BYTES, split_script};
