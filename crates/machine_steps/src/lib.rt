//! One step of a compiled program over the words of a machine: the least number of the top frame runs, and what it changes is recorded.
#![tactic(auto)]

mod beginning;
mod calls;
mod leaving;
mod rows;
mod stepping;

pub use beginning::start;
pub use rows::entry_lengths;
pub use stepping::step;
