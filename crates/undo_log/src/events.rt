//! Kept events.
ghost use Rattle.std.specs.Prelude.{◌≡◌, ◌+◌, ◌-◌, ◌≤◌, if◌then◌else◌, count_by, length, take};
ghost use Rattle.circular_buffer.specs.Buffer.{buffer};
ghost use Rattle.undo_log.specs.History.{is_step};

use crate::timeline::Undone;
use circular_buffer::HeapCircularBuffer;

/// A kept event, and how many times a word was set after it was opened.
#[derive(Clone, Copy, Debug)]
pub(crate) struct Mark {
    pub(crate) event: Undone,
    pub(crate) count: usize,
}

/// The number of steps among the events.
pub(crate) fn steps_among(events: &HeapCircularBuffer<Undone>) -> usize
    ensures { result ≡ count_by is_step events.now.items }
{
    events
        .iter()
        .filter(|event| matches!(event, Undone::Step))
        .count()
}

/// How many steps an event is.
#[inline(always)]
pub(crate) fn steps_of(event: Undone) -> usize
    ensures { result ≡ (if is_step event then 1 else 0) }
{
    match event {
        Undone::Step => 1,
        Undone::Poke => 0,
    }
}

/// Forgets the oldest event where there are so many, and answers how many steps it was.
pub(crate) fn forget_at(events: &mut HeapCircularBuffer<Undone>, limit: usize) -> usize
    requires some { 1 ≤ limit }
    requires most { length events.old.items ≤ limit }
    ensures events { events.new ≡ buffer (take (limit - 1) events.old.items) events.old.capacity }
    ensures steps { count_by is_step events.old.items ≡ count_by is_step events.new.items + result }
{
    if events.len() < limit {
        return 0;
    }
    match events.pop_back() {
        Some(oldest) => steps_of(oldest),
        None => 0,
    }
}
