//! Sources that were written for Intel's compiler, rewritten as sources of the language.
#![tactic(auto)]

mod file;
mod functions;
mod porting;
mod variables;

pub use port_tokens::{Place, PortRefusal, Reason, Refused, place_of};
pub use porting::{MOST_BYTES, port};
