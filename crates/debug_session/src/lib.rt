//! The debugger over a recorded machine: every command, and what it is answered.
#![tactic(auto)]

mod changing;
mod framed;
mod goal;
mod moving;
mod places;
mod refusing;
mod session;
mod showing;
mod stopping;
mod table;
mod watching;

pub use debug_answers::{Answer, NumberedStop, Refusal, Stop};
pub use session::Session;
pub use table::breakpoint_on;
