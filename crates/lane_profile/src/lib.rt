//! Counts of a run: how many steps each line and each function takes, and how many lanes do them.
#![tactic(auto)]

mod run;
mod steps;

pub use run::{count_run, name_of, next_step};
pub use steps::do_steps;
