//! What of statements needs no walk over statements: those that hold no others, the heads and ends of those that do, and the
//! forms of all of them, made of their judged parts.
#![tactic(auto)]

mod forms;
mod heads;
mod labels;
mod segments;
mod simple;
mod whole;

pub use forms::{
    block, body_first, choice, conditional, more_statements, over_lanes, over_values, type_of,
};
pub use heads::{
    for_each_head, for_test, rounds_head, selector_step, test_apart, test_step, update_number,
    value_apart,
};
pub use labels::label_word;
pub use segments::{more_segments, switch_of};
pub use simple::simple_statement;
pub use whole::{for_each_of, for_of, while_of};
