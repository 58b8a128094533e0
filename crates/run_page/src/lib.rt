//! The page of a run: one HTML file with a record of each of its moments, and a viewer that walks through them.
#![tactic(auto)]

mod calls;
mod changes;
mod choosing;
mod comparing;
mod moments;
mod names;
mod noting;
mod page;
mod reading;
mod record;
mod texts;
mod variables;
mod views;
mod writing;

pub use page::{PageEnd, Subject, Viewer, Written, write_page};
