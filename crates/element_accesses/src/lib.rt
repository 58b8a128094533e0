//! The accesses of elements of arrays in a program whose lanes may touch different ones, and what a run counts of them.
#![tactic(auto)]

mod accesses;
mod finding;
mod reading;
mod shown;
mod step_rows;
mod varying;

pub use accesses::{Access, Accesses};
pub use reading::Way;
pub use shown::{array_name, line_at};
