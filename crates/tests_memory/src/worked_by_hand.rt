//! Stores, parts and scalars, with values worked out by hand.
ghost use Rattle.std.specs.Prelude.{◌≡◌, ◌+◌, ◌≤◌, length};

use crate::told::{holds, holds_at_index};
use gang_memory::{
    Part, Recorded, WordStore, assign_scalar, declare_scalar, packed_load, packed_store, part_from,
    read_scalar, scatter,
};
use gang_types::{FaultName, Mask, Rate};
use std::process::Abort;
use std::test::Fail;
use undo_log::{SnapshotRing, Timeline, Undone};

fn part(first: usize, len: usize) -> Part
    ensures first { result.first ≡ first }
    ensures len { result.len ≡ len }
{
    Part { first, len }
}

// The words of a store are those that are wanted.
fn are_words(rt: &impl Abort, found: &[u64], wanted: &[u64]) {
    holds(rt, found == wanted, "the words");
}

#[test]
fn of_lanes_that_name_one_element_the_highest_stays(rt: HostRuntime) -> Result<(), Fail> {
    let mut store = vec![in rt.alloc(); 0, 0, 0, 0]?;
    let stored = scatter(
        &mut store,
        part(0, 4),
        Mask::all::<4>(),
        [0, 0, 1, 1],
        [0, 1, 2, 3],
    );
    holds(&rt, stored == Ok(()), "the store");
    are_words(&rt, &store, &[1, 3, 0, 0]);
    Ok(())
}

#[test]
fn a_missing_element_leaves_all_as_it_was(rt: HostRuntime) -> Result<(), Fail> {
    let mut store = vec![in rt.alloc(); 5, 6, 7, 8]?;
    let stored = scatter(
        &mut store,
        part(1, 2),
        Mask::from_word::<4>(14),
        [9, 0, 2, 9],
        [1, 2, 3, 4],
    );
    holds(&rt, stored == Err((2, FaultName::Index)), "the store");
    are_words(&rt, &store, &[5, 6, 7, 8]);
    Ok(())
}

// The words that a packed load gives, and how many elements it takes.
fn packed(store: &Vec<u64>, part: Part, mask: Mask) -> Result<([u64; 4], usize), (usize, FaultName)>
    requires { part.first + part.len ≤ length store.now.items }
{
    match packed_load::<4, _>(store, part, mask) {
        Ok(loaded) => {
            let words = loaded.words;
            Ok((words, loaded.count))
        }
        Err(fault) => Err(fault),
    }
}

#[test]
fn a_packed_load_gives_the_first_elements(rt: HostRuntime) -> Result<(), Fail> {
    let store = vec![in rt.alloc(); 0, 10, 20, 30]?;
    let mask = Mask::from_word::<4>(10);
    let loaded = packed(&store, part(1, 3), mask);
    holds(&rt, loaded == Ok(([0, 10, 0, 20], 2)), "three elements");
    let missing = packed(&store, part(3, 1), mask);
    holds(&rt, missing == Err((3, FaultName::Index)), "one element");
    Ok(())
}

#[test]
fn a_packed_store_writes_the_first_elements(rt: HostRuntime) -> Result<(), Fail> {
    let mut store = vec![in rt.alloc(); 0, 0, 0, 0]?;
    let stored = packed_store(
        &mut store,
        part(1, 3),
        Mask::from_word::<8>(10),
        [1, 2, 3, 4, 5, 6, 7, 8],
    );
    holds(&rt, stored == Ok(2), "how many are stored");
    are_words(&rt, &store, &[0, 2, 4, 0]);
    Ok(())
}

#[test]
fn a_part_may_begin_at_the_end(rt: HostRuntime) {
    let mask = Mask::only::<4>(1);
    let fault = (1, FaultName::Index);
    let rows = [
        (1, Ok(part(3, 2))),
        (3, Ok(part(5, 0))),
        (4, Err(fault)),
        (u64::MAX, Err(fault)),
    ];
    for (index, wanted) in &rows {
        let found = part_from::<4>(part(2, 3), mask, *index);
        holds_at_index(&rt, found == *wanted, "a part", *index as i128, 3);
    }
}

#[test]
fn a_declared_scalar_is_0_in_other_lanes(rt: HostRuntime) -> Result<(), Fail> {
    let mut store = vec![in rt.alloc(); 1, 2, 3, 4, 5, 6]?;
    declare_scalar(
        &mut store,
        1,
        Rate::Varying,
        Mask::only::<4>(2),
        [7, 8, 9, 10],
    );
    are_words(&rt, &store, &[1, 0, 0, 9, 0, 6]);
    Ok(())
}

#[test]
fn an_assigned_scalar_keeps_the_words_of_other_lanes(rt: HostRuntime) -> Result<(), Fail> {
    let mut store = vec![in rt.alloc(); 1, 2, 3, 4, 5, 6]?;
    assign_scalar(
        &mut store,
        1,
        Rate::Varying,
        Mask::only::<4>(2),
        [7, 8, 9, 10],
    );
    are_words(&rt, &store, &[1, 2, 3, 9, 5, 6]);
    Ok(())
}

#[test]
fn a_uniform_scalar_is_read_by_each_lane(rt: HostRuntime) -> Result<(), Fail> {
    let mut store = vec![in rt.alloc(); 1, 2, 3, 4, 5, 6]?;
    assign_scalar(
        &mut store,
        5,
        Rate::Uniform,
        Mask::only::<4>(2),
        [0, 0, 2, 3],
    );
    let read = read_scalar(&store, 5, Rate::Uniform, Mask::from_word::<4>(3));
    holds(&rt, read == [2, 2, 0, 0], "what is read");
    Ok(())
}

#[test]
fn what_a_record_took_is_taken_back(rt: HostRuntime) -> Result<(), Fail> {
    let mut store = Recorded {
        timeline: SnapshotRing::new(rt.alloc(), 4, 2)?,
    };
    store.timeline.mark(Undone::Step);
    let stored = packed_store(
        &mut store,
        part(0, 4),
        Mask::from_word::<4>(10),
        [1, 2, 3, 4],
    );
    holds(&rt, stored == Ok(2), "how many are stored");
    holds(
        &rt,
        [store.word(0), store.word(1)] == [2, 4],
        "the words stored",
    );
    holds(&rt, store.timeline.back().is_ok(), "they are taken back");
    holds(
        &rt,
        [store.word(0), store.word(1)] == [0, 0],
        "the words then",
    );
    Ok(())
}
