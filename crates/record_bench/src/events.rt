//! Events that set four words each, in any record.
ghost use Rattle.std.specs.Prelude.{◌≡◌, ◌+◌, ◌≤◌, length};

use undo_log::{Timeline, Undone};

/// How many words an event sets.
pub(crate) const CELLS: usize = 4;

/// At how many places an event may begin, one after the other.
const PLACES: u64 = 1_000;

/// The least number of words of a record.
pub(crate) const LEAST: usize = 1_003;

/// Opens an event, and sets the words from a place on.
fn change<T: Timeline>(timeline: &mut T, first: usize, value: u64)
    requires small { first ≤ 999 }
    requires words { LEAST ≤ length (T.history timeline.old).words }
    requires room { CELLS ≤ (T.history timeline.old).room }
    ensures words { length (T.history timeline.new).words ≡ length (T.history timeline.old).words }
    ensures room { (T.history timeline.new).room ≡ (T.history timeline.old).room }
{
    timeline.mark(Undone::Step);
    timeline.set(first, value);
    timeline.set(first + 1, value);
    timeline.set(first + 2, value);
    timeline.set(first + 3, value);
}

/// Makes so many events, each at the place behind the one before.
pub(crate) fn make<T: Timeline>(timeline: &mut T, events: u64)
    requires words { LEAST ≤ length (T.history timeline.old).words }
    requires room { CELLS ≤ (T.history timeline.old).room }
{
    for count in 0..events {
        let first = (count % PLACES) as usize;
        change(timeline, first, count);
    }
}

/// Takes back what is kept, and says how many events that were.
pub(crate) fn take_back<T: Timeline>(timeline: &mut T) -> usize {
    let kept = timeline.kept();
    for _ in 0..kept {
        let _ = timeline.back();
    }
    kept
}
