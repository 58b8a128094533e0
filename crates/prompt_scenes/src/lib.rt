//! What a line at the prompt is done on: what is held, the frame that is selected, and what lines and answers tell.
#![tactic(auto)]

mod frames;
mod holding;
mod readings;
mod scene;
mod watching;

pub use frames::{depth, find_part, frame_above, frame_below, frame_named, select, selected_depth};
pub use holding::{Checkpoint, Displayed, Holding, LastMove};
pub use readings::{
    changes_named, command_repeats, delete_of, index_named, is_here, is_history_end, is_move,
    is_refusal, is_shown, is_stop, is_undone_step, last_move, line_of, made_number, print_of, sets,
    step_named, stopped_number, trimmed, watch_number, watch_of,
};
pub use scene::{ListedLine, Scene};
pub use watching::{known, local_named, place_named};
