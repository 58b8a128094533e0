//! The past of a value: back to what changed it.
#![tactic(auto)]

mod frame_past;
mod past;

pub use past::{go_to_last, tell_changes};
