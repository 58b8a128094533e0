//! Answers the command lines that a reader gives, on a writer.
#![tactic(auto)]

mod answering;
mod debugger;
mod room;
mod session_lines;

pub use answering::{Ending, answer_lines};
pub use debug_traits::{AnswerWriter, CommandReader, READS, ReadFault, WriteFault};
pub use debugger::{LineDebugger, Turn};
pub use room::Room;
pub use session_lines::write_answer;
