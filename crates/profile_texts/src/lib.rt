//! What the counts of a run tell: a table of the lines, the functions, the foreach forms, the accesses or the partings, the source with its counts, and JSON.
#![tactic(auto)]

mod accessed;
mod annotated;
mod colours;
mod comparing;
mod formed;
mod json;
mod lines;
mod parted;
mod parts;
mod profile;
mod rows;
mod tables;

pub use comparing::{Compared, ComparedRun, write_comparison};
pub use profile::{Counted, Form, Subject, write_profile};
