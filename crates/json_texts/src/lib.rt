//! JSON that may stand in a page, written in parts on a writer.
#![tactic(auto)]

mod lists;
mod parts;
mod strings;

pub use lists::write_comma;
pub use parts::{Part, write_part, write_parts};
