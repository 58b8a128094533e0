//! Where the words of a program lie: scalars read and written by lanes, and elements of arrays by their indices
//! (ISPC User's Guide, "Arrays" and "Packed Load and Store Operations").
//!
//! Where lanes of a mask name an element that is not there, the lowest of them has the fault, and nothing is written;
//! of lanes that store to one element the highest stays. Both are choices of this project.
#![tactic(auto)]

mod elements;
mod frames;
mod layout;
mod packed;
mod parts;
mod reading;
mod recorded;
mod scalars;
mod slots;
mod store;
mod writing;

pub use elements::{gather, scatter};
pub use frames::{Frames, MOST_FRAMES};
pub use layout::Layout;
pub use packed::{Loaded, packed_load, packed_store};
pub use parts::{Part, part_from};
pub use recorded::Recorded;
pub use scalars::{assign_scalar, declare_scalar, read_scalar, word_count};
pub use store::WordStore;
