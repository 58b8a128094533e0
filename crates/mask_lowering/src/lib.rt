//! The table of points of a typed program.
#![tactic(auto)]

mod count;
mod lowering;
mod masked;
mod point;
mod steps;
mod ways;

pub use masked::{Masked, lower};
pub use point::Point;
