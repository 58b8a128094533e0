//! The messages of the Debug Adapter Protocol: requests from JSON, and replies and events as JSON.
#![tactic(auto)]

mod arguments;
mod bodies;
mod counts;
mod names;
mod replies;
mod requests;
mod variables;

pub use replies::{
    change_body, event_message, failure_message, output_body, reply_message, stop_body,
};
pub use requests::{Head, RequestFault, read_head, read_request};
