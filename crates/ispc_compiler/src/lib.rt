//! From the text of a source to its program.
#![tactic(auto)]

mod front;

pub use front::{Compiled, compile_source};
pub use source_answers::SourceFault;
