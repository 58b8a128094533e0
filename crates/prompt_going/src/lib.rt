//! On to a breakpoint or watch that counts, or to a line.
#![tactic(auto)]

mod doing;
mod going;

pub use doing::{finish, go_until};
pub use going::{begin_run, do_typed};
