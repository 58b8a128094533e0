//! The record that a run keeps its history in.
ghost use Rattle.std.specs.Prelude.{◌≡◌, ◌≤◌, IfOk};
ghost use Rattle.gang_machine.specs.Openings.{IsNew};

use std::alloc::{AllocError, Global};
use undo_log::{DeltaRing, SnapshotRing, Timeline};

/// A record that can be made for a run, once the program says how many words it has.
pub trait NewRecord: Timeline + Drop {
    /// A record of this many words, all 0, that keeps nothing. `limit` is the most events that are kept. At least `cells` words may
    /// be set after one mark.
    ///
    /// # Errors
    ///
    /// Out of memory.
    fn with_room(
        alloc: Global,
        words: usize,
        limit: usize,
        cells: usize,
    ) -> Result<Self, AllocError>
        requires limit { (1 ≤ limit) × (limit ≤ 65536) }
        requires cells { cells ≤ 65536 }
        ensures fresh { IfOk result (λ made. IsNew words (Self.history made)) }
        ensures limit { IfOk result (λ made. (Self.history made).limit ≡ limit) }
        ensures room { IfOk result (λ made. cells ≤ (Self.history made).room) };
}

impl NewRecord for DeltaRing {
    fn with_room(
        alloc: Global,
        words: usize,
        limit: usize,
        cells: usize,
    ) -> Result<Self, AllocError> {
        DeltaRing::new(alloc, words, limit, cells)
    }
}

impl NewRecord for SnapshotRing {
    fn with_room(
        alloc: Global,
        words: usize,
        limit: usize,
        _cells: usize,
    ) -> Result<Self, AllocError> {
        SnapshotRing::new(alloc, words, limit)
    }
}
