//! A record of old words: the words now, and for each kept event the words before it.
#![tactic(auto)]

mod changes;
mod copying;
mod delta_ring;
mod events;
mod snapshot_ring;
mod timeline;

pub use copying::{all_words, put_back};
pub use delta_ring::DeltaRing;
pub use snapshot_ring::SnapshotRing;
pub use timeline::{Back, NoHistory, Timeline, Undone};
