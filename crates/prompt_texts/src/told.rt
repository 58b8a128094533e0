//! What is told of a value: its items, as it was read.
ghost use Rattle.std.specs.Prelude.{◌≡◌, ◌≤◌, ◌<◌, ◌+◌, ◌-◌, ◌^◌, ◌∷◌, ◌==◌, ℕ, true, false, drop, length, slice_index, take, IfOk};
ghost use Rattle.std.specs.List.{prefix_len};
ghost use Rattle.gang_types.specs.Lanes.{Lanes};
ghost use Rattle.gang_types.specs.Masks.{lanes_of};
ghost use Rattle.gang_model.specs.Types.Tree.{Variable};
ghost use Rattle.gang_model.specs.Debugger.Debugger.{Debugger, Setting, now, shown_words};
ghost use Rattle.debug_traits.specs.Frames.{IsShownAt, state_at};
ghost use Rattle.prompt_texts.specs.Items as spec;
ghost use Rattle.prompt_texts.specs.Shown.{Puts};

use crate::items::{Item, Layout, Standing, put_items, put_rest};
use crate::page::Page;
use debug_traits::{AnswerWriter, FramedMachine, Shown};
use gang_types::{IntType, Mask, Rate};
use std::alloc::{AllocError, Global};
use value_digits::Digits;

/// The widest gang.
const WIDEST: usize = 16;

/// What is told of a value: its type, its items, and whether elements are left out.
#[derive(Drop)]
pub struct Told {
    pub value_type: IntType,
    pub items: Vec<Item>,
    pub is_cut: bool,
}

/// The words of a variable in the frame at a depth, from one on up to another.
fn words_at<M: FramedMachine>(
    alloc: Global,
    shown: Shown,
    from: usize,
    to: usize,
    depth: usize,
    machine: &M,
) -> Result<Vec<u64>, AllocError>
    ensures words { (s : Setting) (d : Debugger) (v : Variable) → M.stands machine.now s d → IsShownAt s d depth v shown → from ≤ to → to ≤ shown.count
        → IfOk result (λ words. words.items ≡ take (to - from) (drop from (shown_words (state_at depth (now s d)) v))) }
    ensures few { IfOk result (λ words. from + length words.items < 2 ^ 64) }
{
    let mut words = Vec::new(alloc);
    for index in from..to {
        words.push(machine.word_at(depth, shown, index))?;
    }
    Ok(words)
}

/// What is told of a variable in the frame at a depth, from a lane or an element on up to another. Lanes that are not among those that
/// are given wait.
pub fn told_variable<M: FramedMachine>(
    alloc: Global,
    layout: Layout,
    shown: Shown,
    lanes: Mask,
    from: usize,
    to: usize,
    depth: usize,
    machine: &M,
) -> Result<Told, AllocError>
    ensures { (s : Setting) (d : Debugger) (v : Variable) → M.stands machine.now s d → IsShownAt s d depth v shown → from ≤ to → to ≤ shown.count
        → IfOk result (λ told. spec.Tells told shown.value_type layout (spec.is_of_lanes shown.is_array shown.rate) (lanes_of 16 lanes) from
        (take (to - from) (drop from (shown_words (state_at depth (now s d)) v)))) }
{
    let words = words_at(alloc, shown, from, to, depth, machine)?;
    told_words(alloc, layout, shown, lanes, from, &words)
}

/// What is told of a variable's words from a lane or an element on.
fn told_words(
    alloc: Global,
    layout: Layout,
    shown: Shown,
    lanes: Mask,
    from: usize,
    words: &[u64],
) -> Result<Told, AllocError>
    requires { from + length words.now < 2 ^ 64 }
    ensures { IfOk result (λ told. spec.Tells told shown.value_type layout (spec.is_of_lanes shown.is_array shown.rate) (lanes_of 16 lanes) from words.now) }
{
    if is_of_lanes(shown.is_array, shown.rate) {
        told_lanes(alloc, shown.value_type, lanes, from, words)
    } else {
        told_elements(alloc, shown.value_type, layout, from, words)
    }
}

/// Whether a variable has a word for each lane.
pub(crate) fn is_of_lanes(is_array: bool, rate: Rate) -> bool
    ensures { result ≡ spec.is_of_lanes is_array rate }
{
    !is_array && rate == Rate::Varying
}

/// What is told of the words of lanes from one on: an item for each.
fn told_lanes(
    alloc: Global,
    value_type: IntType,
    lanes: Mask,
    from: usize,
    words: &[u64],
) -> Result<Told, AllocError>
    requires { from + length words.now < 2 ^ 64 }
    ensures { (layout : Layout) → IfOk result (λ told. spec.Tells told value_type layout true (lanes_of 16 lanes) from words.now) }
{
    let mut items = Vec::new(alloc);
    for at in 0..words.len() {
        items.push(lane_item(lanes, from + at, words[at]))?;
    }
    Ok(Told {
        value_type,
        items,
        is_cut: false,
    })
}

/// The item of a lane.
pub(crate) fn lane_item(lanes: Mask, lane: usize, word: u64) -> Item
    ensures { result ≡ spec.lane_item (lanes_of 16 lanes) lane word }
{
    Item {
        index: lane,
        word,
        count: 1,
        standing: if lanes.has::<WIDEST>(lane) {
            Standing::Counts
        } else {
            Standing::Waits
        },
    }
}

/// What is told of elements from one on: long runs of equal ones are one item, and what follows so many is left out.
fn told_elements(
    alloc: Global,
    value_type: IntType,
    layout: Layout,
    from: usize,
    words: &[u64],
) -> Result<Told, AllocError>
    requires { from + length words.now < 2 ^ 64 }
    ensures { (lanes : Lanes) → IfOk result (λ told. spec.Tells told value_type layout false lanes from words.now) }
{
    let mut items = Vec::new(alloc);
    let mut at = 0;
    let mut left = layout.elements;
    while at < words.len() {
        if left == 0 {
            return Ok(Told {
                value_type,
                items,
                is_cut: true,
            });
        }
        let count = group_len(layout.repeats, &words[at..]);
        items.push(element_item(from + at, words[at], count))?;
        at += count;
        left = left.saturating_sub(weight(layout.repeats, count));
    }
    Ok(Told {
        value_type,
        items,
        is_cut: false,
    })
}

/// The item of so many elements from one on.
fn element_item(index: usize, word: u64, count: usize) -> Item
    ensures { result ≡ spec.element_item index (word, count) }
{
    Item {
        index,
        word,
        count,
        standing: Standing::Counts,
    }
}

/// How many elements the first item of these stands for.
fn group_len(repeats: usize, words: &[u64]) -> usize
    requires { 0 < length words.now }
    ensures group { spec.groups repeats words.now ≡ (slice_index words.now 0, result) ∷ spec.groups repeats (drop result words.now) }
    ensures some { 0 < result }
    ensures within { result ≤ length words.now }
{
    let count = 1 + equal_len(words[0], &words[1..]);
    if repeats < count { count } else { 1 }
}

/// How many words are the same as one.
fn equal_len(word: u64, words: &[u64]) -> usize
    ensures run { result ≡ prefix_len (λ other. other == word) words.now }
    ensures within { result ≤ length words.now }
{
    words.iter().take_while(|other| **other == word).count()
}

/// How many elements an item of so many counts for.
fn weight(repeats: usize, count: usize) -> usize
    ensures { (word : ℕ) → result ≡ spec.weight repeats (word, count) }
{
    if count > 1 { repeats } else { 1 }
}

/// Writes what is told of a value, and ends the line.
pub fn put_told<O: AnswerWriter + Drop>(digits: Digits, told: &Told, page: &mut Page<O>)
    ensures { Puts (spec.told_text digits told.now) page.old.has_failed page.new.has_failed (O.written page.old.writer) (O.written page.new.writer) }
{
    put_items(digits, told.value_type, told.items.as_slice(), page);
    put_rest(told.is_cut, page);
    page.put(b"\n");
}
