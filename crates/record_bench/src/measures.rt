//! The time of an event in each record.
ghost use Rattle.std.specs.Prelude.{◌≡◌, ◌≤◌, length};

use crate::events::{CELLS, LEAST, make, take_back};
use std::alloc::Global;
use std::io;
use std::time::Instant;
use undo_log::{DeltaRing, SnapshotRing, Timeline};

const ROUNDS: u32 = 3;

/// The nanoseconds of an event that is made, in thousandths, and how many events were taken back then.
fn timed<T: Timeline>(rt: &HostRuntime, timeline: &mut T, events: u64) -> io::Result<(u64, usize)>
    requires words { LEAST ≤ length (T.history timeline.old).words }
    requires room { CELLS ≤ (T.history timeline.old).room }
{
    let before = Instant::now(rt)?;
    make(timeline, events);
    let kept = take_back(timeline);
    let nanos = before.elapsed(rt)?.as_nanos();
    let each = nanos.saturating_mul(1_000) / (events as u128).max(1);
    Ok((each.min(1 << 50) as u64, kept))
}

/// The same over the old words of each event.
fn timed_by_words(
    rt: &HostRuntime,
    words: usize,
    limit: usize,
    events: u64,
) -> io::Result<(u64, usize)>
    requires words { LEAST ≤ words }
    requires limit { (1 ≤ limit) × (limit ≤ 65536) }
{
    let mut timeline = DeltaRing::new(rt.alloc(), words, limit, CELLS)?;
    timed(rt, &mut timeline, events)
}

/// The same over whole copies of the words.
fn timed_by_copies(
    rt: &HostRuntime,
    words: usize,
    limit: usize,
    events: u64,
) -> io::Result<(u64, usize)>
    requires words { LEAST ≤ words }
    requires limit { (1 ≤ limit) × (limit ≤ 65536) }
{
    let mut timeline = SnapshotRing::new(rt.alloc(), words, limit)?;
    timed(rt, &mut timeline, events)
}

/// Prints the least time of an event of some rounds in both records, with so many words and this limit.
fn row(rt: &HostRuntime, words: usize, limit: usize, events: u64) -> io::Result<()>
    requires words { LEAST ≤ words }
    requires limit { (1 ≤ limit) × (limit ≤ 65536) }
{
    let (mut by_words, kept) = timed_by_words(rt, words, limit, events)?;
    let (mut by_copies, also_kept) = timed_by_copies(rt, words, limit, events)?;
    for _round in 1..ROUNDS {
        let (again, _) = timed_by_words(rt, words, limit, events)?;
        by_words = by_words.min(again);
        let (again, _) = timed_by_copies(rt, words, limit, events)?;
        by_copies = by_copies.min(again);
    }
    let verdict = if kept == also_kept {
        ""
    } else {
        " DIFFERENT EVENTS"
    };
    println!(rt;
        "{words:>9} {limit:>9} {:>12} ps {:>12} ps  x {}{verdict}",
        by_words,
        by_copies,
        by_copies / by_words.max(1)
    )
}

/// Prints a row for each number of words and each limit.
pub(crate) fn measure_all(rt: &HostRuntime, events: u64) -> io::Result<()> {
    println!(rt;
        "{:>9} {:>9} {:>15} {:>15}",
        "words", "history", "old words", "whole copies"
    )?;
    row(rt, LEAST, 64, events)?;
    row(rt, 10_000, 64, events)?;
    row(rt, 100_000, 64, events)?;
    row(rt, LEAST, 4_096, events)
}
