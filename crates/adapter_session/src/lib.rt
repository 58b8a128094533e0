//! What the requests of an editor do to a debugger, and what they are told.
#![tactic(auto)]

mod answering;
mod beginning;
mod changes;
mod counting;
mod doing;
mod frames;
mod functions;
mod going;
mod judging;
mod lines;
mod logging;
mod restoring;
mod terms;
mod typed;

pub use answering::{Answered, answer_request};
pub use beginning::{Beginning, stop_at_beginning};
pub use doing::do_lines;
pub use lines::command_lines;
pub use restoring::restore_stops;
pub use terms::Terms;
