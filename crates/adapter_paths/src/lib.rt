//! Whether two paths are those of one file, though they are spelled otherwise.
#![tactic(auto)]

mod ways;

pub use ways::is_same_file;
