//! The words of a machine in a record that takes events back, by what they are: the file's variables, how many frames there
//! are, the heads of frames and their variables.
#![tactic(auto)]

mod arrays;
mod packed;
mod ranges;
mod regions;
mod views;
mod words;

pub use regions::{Head, LevelPart, Region};
pub use views::{View, part_from, view_words};
pub use words::MachineWords;
