//! A source and an input to a debugger's session, and command lines to their transcript.
#![tactic(auto)]

mod opening;
mod records;
mod running;
mod whole;

pub use ispc_options::{Options, Paths, Width, read_options};
pub use ispc_refusals::{Refusal, write_refusal};
pub use ispc_script::split_script;
pub use opening::{ProgramSession, open_machine, open_session};
pub use records::NewRecord;
pub use running::{run, run_over};
pub use transcript::Ending;
pub use undo_log::{DeltaRing, SnapshotRing};
pub use whole::{WholeSession, open_whole_session};
