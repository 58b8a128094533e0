//! What the debugger answers to a command, and what it holds of breakpoints and watches.
#![tactic(auto)]

mod answer;
mod stops;

pub use answer::{Answer, Refusal};
pub use stops::{NumberedStop, Stop};
