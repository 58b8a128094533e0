//! The two records of old words.
ghost use Rattle.std.specs.Prelude.{◌≡◌};

use crate::ends::{Ended, end_of};
use std::alloc::Global;
use undo_log::{DeltaRing, SnapshotRing, Timeline, all_words};

/// How many words a record has, and how many of them an event sets at most.
const WORDS: usize = 3;

/// Makes the call of a name, if there is memory for what it is called on.
pub(crate) fn call(alloc: Global, name: &str) -> Option<Ended> {
    match name {
        "undo_log::DeltaRing::new" => Some(end_of(&DeltaRing::new(alloc, WORDS, 1, WORDS))),
        "undo_log::SnapshotRing::new" => Some(end_of(&SnapshotRing::new(alloc, WORDS, 1))),
        "undo_log::DeltaRing::set_limit" => {
            Some(grow(&mut DeltaRing::new(alloc, WORDS, 1, WORDS).ok()?))
        }
        "undo_log::SnapshotRing::set_limit" => {
            Some(grow(&mut SnapshotRing::new(alloc, WORDS, 1).ok()?))
        }
        "undo_log::all_words" => copy(alloc),
        _ => None,
    }
}

/// Copies the words of a record.
fn copy(alloc: Global) -> Option<Ended> {
    match DeltaRing::new(alloc, WORDS, 1, WORDS) {
        Ok(record) => Some(end_of(&all_words(alloc, &record, WORDS))),
        Err(_) => None,
    }
}

/// Raises the limit of a record that keeps one event. It stays as it was where there is no memory for that.
fn grow<T: Timeline>(timeline: &mut T) -> Ended {
    let end = end_of(&timeline.set_limit(2));
    let limit = match end {
        Ended::Done => 2,
        _ => 1,
    };
    if timeline.limit() == limit {
        end
    } else {
        Ended::Otherwise
    }
}
