//! What a debugger sees of the words of a machine, and what it sets: where the program stands, the calls of its frames, and the words
//! of its variables.
#![tactic(auto)]

mod found;
mod frames;
mod positions;
mod shown;

pub use frames::{frame_count, step_at};
pub use positions::{call, position};
pub use shown::{count, poke, poke_at, word};
