//! What the crates that read statements share: names, nestings and words at the front of the tokens, and statements in boxes.
#![tactic(auto)]

mod front;
mod misfits;
mod nodes;
mod words;

pub use front::{Context, Identifier, Read, copied_name, enter, name, number, refused_at, take_at};
pub use misfits::{local_spec, outer_spec};
pub use nodes::{block_of, closed, do_while, ended, if_else, if_then, push, switch_of, with_rest};
pub use words::{Loop, Opening, Plain, opening_of};
