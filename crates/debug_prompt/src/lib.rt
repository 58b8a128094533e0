//! A prompt: what people type is done by the debugger's own commands, and shown with the source.
#![tactic(auto)]

mod copies_told;
mod dialogue;
mod listing;
mod looking;
mod printing;
mod prompt;
mod running;
mod settings;
mod within;

pub use dialogue::Dialogue;
pub use prompt::{Prompt, Turn};
