//! What the debugger asks of a machine, and what its command loop asks of a reader and of a writer.
#![tactic(auto)]

mod begins_again;
mod devices;
mod framed;
mod journal;
mod machine;
mod moves;
mod sure_pokes;
mod taking_back;

pub use begins_again::BeginsAgain;
pub use devices::{AnswerWriter, CommandReader, READS, ReadFault, WriteFault};
pub use framed::FramedMachine;
pub use journal::Journal;
pub use machine::{Fault, NamedVariable, NextLocal, Position, RecordedMachine, Shown, StepEnd};
pub use moves::Moves;
pub use sure_pokes::PokesSurely;
pub use taking_back::{poke_and_undo, step_and_undo};
