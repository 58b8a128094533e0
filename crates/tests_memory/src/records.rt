//! Three events over three words, in each kind of record.
ghost use Rattle.std.specs.Prelude.{◌≡◌, ◌≤◌, length};

use crate::told::holds;
use std::alloc::AllocError;
use std::process::Abort;
use undo_log::{Back, DeltaRing, NoHistory, SnapshotRing, Timeline, Undone};

/// Three events over three words: the first sets one word twice, the others set a word each.
fn make_events<T: Timeline>(timeline: &mut T)
    requires words { length (T.history timeline.old).words ≡ 3 }
    requires room { 2 ≤ (T.history timeline.old).room }
    ensures words { length (T.history timeline.new).words ≡ 3 }
{
    timeline.mark(Undone::Step);
    timeline.set(0, 5);
    timeline.set(0, 6);
    timeline.mark(Undone::Poke);
    timeline.set(1, 9);
    timeline.mark(Undone::Step);
    timeline.set(2, 4);
}

fn words_of<T: Timeline>(timeline: &T) -> [u64; 3]
    requires { length (T.history timeline.now).words ≡ 3 }
{
    [timeline.word(0), timeline.word(1), timeline.word(2)]
}

fn taken_back(event: Undone, written: usize) -> Result<Back, NoHistory> {
    Ok(Back { event, written })
}

/// Takes events back, one after the other: `back` answers so each time, and then the words are these.
fn goes_back<T: Timeline>(
    rt: &impl Abort,
    timeline: &mut T,
    rows: &[(Result<Back, NoHistory>, [u64; 3])],
)
    requires { length (T.history timeline.old).words ≡ 3 }
{
    for (answer, words) in rows {
        holds(rt, timeline.back() == *answer, "what taking back answers");
        holds(rt, words_of(timeline) == *words, "the words behind it");
    }
}

/// Of the three events two are kept; `written` words are written for each.
fn forgets_past_two<T: Timeline>(rt: &impl Abort, timeline: &mut T, written: [usize; 2])
    requires words { length (T.history timeline.old).words ≡ 3 }
    requires room { 2 ≤ (T.history timeline.old).room }
{
    make_events(timeline);
    let kept = (timeline.kept(), timeline.kept_steps());
    holds(rt, kept == (2, 1), "how many are kept");
    holds(rt, words_of(timeline) == [6, 9, 4], "the words");
    let rows = [
        (taken_back(Undone::Step, written[0]), [6, 9, 0]),
        (taken_back(Undone::Poke, written[1]), [6, 0, 0]),
        (Err(NoHistory), [6, 0, 0]),
    ];
    goes_back(rt, timeline, &rows);
}

/// All three events are kept; `written` words are written for each.
fn takes_all_back<T: Timeline>(rt: &impl Abort, timeline: &mut T, written: [usize; 3])
    requires words { length (T.history timeline.old).words ≡ 3 }
    requires room { 2 ≤ (T.history timeline.old).room }
{
    make_events(timeline);
    let kept = (timeline.kept(), timeline.kept_steps());
    holds(rt, kept == (3, 2), "how many are kept");
    let rows = [
        (taken_back(Undone::Step, written[0]), [6, 9, 0]),
        (taken_back(Undone::Poke, written[1]), [6, 0, 0]),
        (taken_back(Undone::Step, written[2]), [0, 0, 0]),
        (Err(NoHistory), [0, 0, 0]),
    ];
    goes_back(rt, timeline, &rows);
}

#[test]
fn a_snapshot_ring_forgets_past_its_limit(rt: HostRuntime) -> Result<(), AllocError> {
    let mut timeline = SnapshotRing::new(rt.alloc(), 3, 2)?;
    forgets_past_two(&rt, &mut timeline, [3, 3]);
    Ok(())
}

#[test]
fn a_delta_ring_forgets_past_its_limit(rt: HostRuntime) -> Result<(), AllocError> {
    let mut timeline = DeltaRing::new(rt.alloc(), 3, 2, 2)?;
    forgets_past_two(&rt, &mut timeline, [1, 1]);
    Ok(())
}

#[test]
fn a_snapshot_ring_takes_all_back(rt: HostRuntime) -> Result<(), AllocError> {
    let mut timeline = SnapshotRing::new(rt.alloc(), 3, 3)?;
    takes_all_back(&rt, &mut timeline, [3, 3, 3]);
    Ok(())
}

#[test]
fn a_delta_ring_takes_all_back(rt: HostRuntime) -> Result<(), AllocError> {
    let mut timeline = DeltaRing::new(rt.alloc(), 3, 3, 2)?;
    takes_all_back(&rt, &mut timeline, [1, 1, 2]);
    Ok(())
}

#[test]
fn a_set_that_changes_nothing_is_written_back(rt: HostRuntime) -> Result<(), AllocError> {
    let mut timeline = DeltaRing::new(rt.alloc(), 3, 1, 4)?;
    timeline.set(0, 7);
    timeline.mark(Undone::Poke);
    timeline.set(0, 7);
    timeline.set(1, 0);
    goes_back(
        &rt,
        &mut timeline,
        &[(taken_back(Undone::Poke, 2), [7, 0, 0])],
    );
    Ok(())
}

#[test]
fn the_rooms(rt: HostRuntime) -> Result<(), AllocError> {
    let snapshots = SnapshotRing::new(rt.alloc(), 3, 2)?;
    let deltas = DeltaRing::new(rt.alloc(), 3, 2, 5)?;
    holds(&rt, snapshots.room() == usize::MAX, "room of snapshots");
    holds(&rt, deltas.room() == 5, "room of changes");
    Ok(())
}

/// The three events under a limit of three; under a smaller one the newest events stay, and under a larger one no more come back.
fn changes_its_limit<T: Timeline>(
    rt: &impl Abort,
    timeline: &mut T,
    smaller: usize,
) -> Result<(), AllocError>
    requires words { length (T.history timeline.old).words ≡ 3 }
    requires room { 2 ≤ (T.history timeline.old).room }
    requires smaller { (1 ≤ smaller) × (smaller ≤ 3) }
    ensures { length (T.history timeline.new).words ≡ 3 }
{
    timeline.set_limit(3)?;
    make_events(timeline);
    let limited = (timeline.limit(), timeline.kept());
    holds(rt, limited == (3, 3), "a limit of 3");
    holds(
        rt,
        timeline.set_limit(smaller).is_ok(),
        "a smaller limit is set",
    );
    let limited = (timeline.limit(), timeline.kept());
    holds(rt, limited == (smaller, smaller), "a smaller limit");
    timeline.set_limit(4)?;
    holds(rt, timeline.kept() == smaller, "a larger limit");
    Ok(())
}

#[test]
fn a_snapshot_ring_changes_its_limit(rt: HostRuntime) -> Result<(), AllocError> {
    let mut timeline = SnapshotRing::new(rt.alloc(), 3, 2)?;
    changes_its_limit(&rt, &mut timeline, 1)?;
    let rows = [
        (taken_back(Undone::Step, 3), [6, 9, 0]),
        (Err(NoHistory), [6, 9, 0]),
    ];
    goes_back(&rt, &mut timeline, &rows);
    Ok(())
}

#[test]
fn a_delta_ring_changes_its_limit(rt: HostRuntime) -> Result<(), AllocError> {
    let mut timeline = DeltaRing::new(rt.alloc(), 3, 2, 2)?;
    changes_its_limit(&rt, &mut timeline, 2)?;
    let rows = [
        (taken_back(Undone::Step, 1), [6, 9, 0]),
        (taken_back(Undone::Poke, 1), [6, 0, 0]),
        (Err(NoHistory), [6, 0, 0]),
    ];
    goes_back(&rt, &mut timeline, &rows);
    Ok(())
}
