//! Statements of a ported source that hold others: blocks, `if`, `switch` and loops.
#![tactic(auto)]

mod bodies;
mod dispatch;
mod do_loops;
mod for_heads;
mod for_parts;
mod heads;
mod labels;
mod loops;
mod ranges;

pub use loops::block;
