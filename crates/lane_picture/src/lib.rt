//! A picture of a run: the lines of the source downwards, its steps across, and a track for each lane.
#![tactic(auto)]

mod bands;
mod columns;
mod escaping;
mod frame;
mod layout;
mod parts;
mod picture;
mod sheet;
mod sizes;
mod source;
mod spans;
mod strip;
mod tracks;
mod words;

pub use columns::{StepsEnd, end_after, try_step};
pub use picture::{Form, PictureEnd, Subject, draw};
