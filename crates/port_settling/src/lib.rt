//! What is done before the grammar: macros, second names of types, enumerations, characters and letters of thousands are written out.
#![tactic(auto)]

mod characters;
mod directives;
mod enumerations;
mod expanding;
mod macros;
mod settling;

pub use expanding::expand;
