//! The draft of a ported source: its tokens, what its words stand for, and what is written so far.
#![tactic(auto)]

mod brackets;
mod draft;
mod effects;
mod functions;
mod known;
mod making;
mod names;
mod numbers;
mod types;

pub use draft::{DEPTH, Draft};
pub use functions::{Function, Functions};
pub use known::{Known, Meaning, Meanings, Names, Shape};
pub use numbers::value_of;
