//! The words of the command line.
#![tactic(auto)]

mod arguments;
mod options;
mod reading;

pub use arguments::{flag, option, option_or, up_to, valued, widths};
pub use options::{Options, Paths, Width};
pub use reading::{read_options, wrong_arguments};
