//! The operations of expressions on a gang's lanes under a mask: one word for each lane of the mask, and 0 in the others.
//!
//! A vector stands for the list of its `W` words. Words outside the mask are never read.
//! Where lanes of the mask divide by 0, the lowest of them has the fault; that is a choice of this project.
#![tactic(auto)]

mod calls;
mod choices;
mod operators;
mod words;

pub use calls::{absolute, max, min, popcnt};
pub use choices::{both_hold, chosen, either_holds, where_false, where_true};
pub use operators::{binary, convert, unary};
pub use words::{lane_numbers, only, splat};
