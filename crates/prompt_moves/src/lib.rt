//! The moves that a line at the prompt makes, and what follows them.
#![tactic(auto)]

mod beginning;
mod going_back;
mod moments;
mod pieces;
mod turning;

pub use beginning::{ANEW, is_whole, run, start, take_all_back};
pub use moments::{
    forget, go_to_step, is_unset, move_to, note_moment, restart, show_checkpoints, step_on,
};
pub use pieces::{go_on, stop_on};
pub use turning::{do_alone, do_own, follow, show_displays};
