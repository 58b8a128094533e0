//! Breakpoints and watches at the prompt: how lines make, change and delete them, and the lines that they have.
#![tactic(auto)]

mod breaking;
mod expressions;
mod lists;
mod lists_told;
mod numbers;
mod taking;
mod watches;
mod writes;

pub use breaking::{
    break_temporarily, change_condition, clear, delete, ignore, make_break, make_watch,
};
pub use lists::{Lists, begins_list};
pub use lists_told::{tell_all_lines, tell_begun, tell_unended, tell_watch_lines};
pub use numbers::{Numbers, disable, enable, numbers_for, numbers_named};
pub use watches::{list_frames, tell_ended, tell_walked};
