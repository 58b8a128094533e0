//! The code of a typed program: for each step of a function what it does, with the code of its expressions.
#![tactic(auto)]

mod code;
mod compiling;
mod counting;
mod forms;
mod steps;
mod values;

pub use code::{ArgCode, Change, Code, DimensionCode, FormCode, IndexCode, SegmentCode, StepCode};
pub use compiling::compile;
pub use counting::cells;
