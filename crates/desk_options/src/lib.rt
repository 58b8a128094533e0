//! The words that `rinddecade` is called with.
#![tactic(auto)]

mod commands;
mod names;
mod page_values;
mod profile_values;
mod reading;
mod values;
mod verbs;

pub use reading::read_verb;
pub use verbs::{Debugged, Explained, Picture, Ported, Profile, Program, RunPage, Verb};
