//! Walks through the run: what is asked of each of its moments, and what its lanes did so far.
#![tactic(auto)]

mod asking;
mod lanes_told;

pub use asking::tell_when;
pub use lanes_told::tell_lanes;
