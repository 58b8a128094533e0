//! What a terminal shows of a prompt's lines: their colours, and where a long list waits.
#![tactic(auto)]

mod colours;
mod inks;
mod pages;
mod settings;

pub use colours::put_coloured;
pub use pages::{MORE, Pages};
pub use settings::{height_of, height_set_by};
