//! The variables that calls give their results to.
#![tactic(auto)]

mod calls;
mod given;

pub use calls::{GivingCall, giving_at};
pub use given::{GivenResult, given_at};
