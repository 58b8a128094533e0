//! The parts of statements in their typed form, and their faults S7 to S10: targets, conditions, declarations, results, rounds.
#![tactic(auto)]

mod assignments;
mod beside;
mod calls;
mod conditions;
mod declarations;
mod numbering;
mod results;
mod rounds;
mod targets;

pub use assignments::{assignment, change, increment};
pub use calls::called;
pub use conditions::{some_test, test_of};
pub use declarations::declare;
pub use numbering::{advanced, one_step, steps_in};
pub use results::{returning, unjudged};
pub use rounds::{declare_indices, dimensions};
pub use targets::variable_of;
