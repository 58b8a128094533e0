//! The steps of the foreach forms over the words of a machine: a form begins, and its next round.
#![tactic(auto)]

mod beginning;
mod rounds;

pub use beginning::begin_form;
pub use rounds::{next_round, take_round};
