//! The value of an expression, by its instructions: a machine with a stack of vectors, a word for each lane, and a stack of masks.
#![tactic(auto)]

mod evaluation;
mod machine;
mod stacks;
mod stop;

pub use evaluation::{NESTING, ROOM, Stacks, evaluate};
pub use stop::Stop;
