//! The limits that a source meets.
#![tactic(auto)]

mod limits;
mod room;

pub use limits::limit_refusal;
