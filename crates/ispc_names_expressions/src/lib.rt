//! The faults of names within a statement: in its expressions, its right sides and the heads of the foreach forms, and where
//! a call or a jump may not stand.
#![tactic(auto)]

mod allowed;
mod expressions;
mod heads;
mod labels;
mod parts;
mod right_sides;

pub use allowed::{Allowed, in_function};
pub use expressions::{arguments_fault, expression_fault};
pub use heads::{domain_head_fault, round_head_fault};
pub use labels::label_fault;
pub use parts::simple_fault;
pub use right_sides::some_expression_fault;
