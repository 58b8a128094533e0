//! What a prompt writes: places with their source lines, changed variables, refusals as sentences, and help.
#![tactic(auto)]

mod answers;
mod asked;
mod causes;
mod changes;
mod expressions;
mod forms;
mod frames;
mod help;
mod items;
mod lanes;
mod looks;
mod marked;
mod moments;
mod noted;
mod page;
mod places;
mod refusals;
mod source;
mod told;
mod values;

pub use answers::{tell, tell_move};
pub use asked::{Asked, show_moment, tell_asked};
pub use causes::{tell_refused, tell_refused_at, tell_refused_here};
pub use changes::{Before, Beginning, Watched, tell_never_changed, tell_since};
pub use expressions::{Spelled, show_expression, show_faulty, tell_no_value};
pub use frames::{
    lanes_at, show_arguments, show_frame, show_frames, show_full_frames, show_locals, show_value,
};
pub use items::{Item, Layout, Standing};
pub use lanes::{LaneShare, SharesHere, show_lanes};
pub use looks::{
    list_lines, show_displayed, show_help, show_here, show_line, show_lists, show_source,
    show_text, show_type, show_variables, show_watches,
};
pub use marked::put_marked;
pub use moments::{
    show_checkpoint, show_recording, tell_checkpoint, tell_no_such_step, tell_not_whole, tell_usage,
};
pub use page::Page;
pub use refusals::{tell_unknown, tell_unspelled};
pub use source::Source;
pub use told::{Told, put_told, told_variable};
