//! Counts of the steps of a run: how many there are at each line, and by how many lanes.
#![tactic(auto)]

mod counts;
mod forms;
mod frames;
mod gang;
mod names;
mod shares;
mod table;
mod tally;

pub use counts::Counts;
pub use forms::FormCounts;
pub use gang::Gang;
pub use names::Names;
pub use shares::{lost, share, share_of};
pub use tally::{StepAt, Tally};
