//! What a phase of the compiler answers: a value, the least refusal of a source, or out of memory.
#![tactic(auto)]

mod answers;
mod fault;
mod judged;
mod least_faults;

pub use answers::{Answer, both_answers, in_order, joined, set_apart};
pub use fault::{SourceFault, both_boxed, boxed};
pub use judged::{both, refuse};
pub use least_faults::{fault_if, least, least_inside};
