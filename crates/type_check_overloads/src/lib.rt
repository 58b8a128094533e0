//! Which function a call means, by what its arguments cost in each of those that have its name, and what it passes to it.
#![tactic(auto)]

mod costs;
mod overloads;
mod passed;

pub use overloads::{Candidate, candidates, overload};
pub use passed::passed_args;
