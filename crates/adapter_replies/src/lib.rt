//! What the requests of an editor are told, from where a debugger stands after them.
#![tactic(auto)]

mod asking;
mod breakpoints;
mod children;
mod columns;
mod completions;
mod console;
mod ends;
mod evaluating;
mod exceptions;
mod expressions;
mod forms;
mod frames;
mod hints;
mod locals;
mod locations;
mod meanings;
mod opened;
mod pages;
mod parts;
mod places;
mod replies;
mod scopes;
mod setting;
mod stops;
mod targets;
mod texts;
mod threads;
mod waiting;
mod watchable;

pub use breakpoints::can_watch;
pub use children::{OpenedExpression, expression_variables, opened_expression, with_reference};
pub use ends::reply_at_end;
pub use exceptions::exception_reply;
pub use expressions::no_value_text;
pub use places::{depth_in, depth_of, expression_index, expression_reference, is_set_there};
pub use replies::reply_to;
pub use stops::{stop_behind, stop_of};
pub use texts::answer_text;
pub use threads::{Threads, stop_thread, thread_reply};
