//! Where a program stands, and the calls that are open then.
ghost use Rattle.std.specs.Prelude.{◌≡◌, ◌≤◌, ◌++◌, true, IfOk, List, Some, length, slice_get, take};
ghost use Rattle.gang_model.specs.Debugger.Debugger.{Debugger, Setting, now};
ghost use Rattle.gang_model.specs.Texts.Text.{Bytes};
ghost use Rattle.debug_traits.specs.Machines.{position_line, position_text};
ghost use Rattle.run_page.specs.Calls.{AreCalls, StandsNamed, lines_of, open_calls};
ghost use Rattle.run_page.specs.Moments.{Stands};
ghost use Rattle.run_page.specs.Names.{GrowsNames, names_view};

use crate::moments::{Call, Stand};
use crate::names::{Names, function_number};
use crate::reading::frame_count;
use debug_traits::{FramedMachine, Position};
use std::alloc::{AllocError, Global};

/// Where a program stands, with the number of its function.
///
/// # Errors
///
/// Out of memory.
pub(crate) fn stand_of(
    alloc: Global,
    position: Option<Position<'_>>,
    functions: &mut Names,
) -> Result<Option<Stand>, AllocError>
    ensures stands { IfOk result (λ stand. Stands (position_text position.entry) stand) }
    ensures named { IfOk result (λ stand. StandsNamed (names_view functions.new.items) (position_text position.entry) stand) }
    ensures grows { GrowsNames (names_view functions.old.items) (names_view functions.new.items) }
{
    match position {
        None => Ok(None),
        Some(position) => Ok(Some(Stand {
            place: position.place,
            function: function_number(alloc, position.function, functions)?,
            depth: position.depth,
            lanes: position.lanes,
        })),
    }
}

/// The calls that the frames below the top one made, the entry's first.
///
/// # Errors
///
/// Out of memory.
pub(crate) fn read_calls<M: FramedMachine>(
    alloc: Global,
    machine: &M,
    functions: &mut Names,
) -> Result<Vec<Call>, AllocError>
    ensures calls { IfOk result (λ calls. (s : Setting) (d : Debugger) → M.stands machine.now s d
        → AreCalls (names_view functions.new.items) calls.items (open_calls s.program (now s d))) }
    ensures grows { GrowsNames (names_view functions.old.items) (names_view functions.new.items) }
{
    let mut calls = Vec::new(alloc);
    for below in 0..frame_count(machine).saturating_sub(1) {
        note_call(alloc, machine.call(below + 1), functions, &mut calls)?;
    }
    Ok(calls)
}

/// Puts a call behind others, if there is one.
fn note_call(
    alloc: Global,
    position: Option<Position<'_>>,
    functions: &mut Names,
    calls: &mut Vec<Call>,
) -> Result<(), AllocError>
    ensures calls { IfOk result (λ _. (lines : List Bytes) → AreCalls (names_view functions.old.items) calls.old.items lines
        → AreCalls (names_view functions.new.items) calls.new.items (lines ++ lines_of (position_line position.entry))) }
    ensures grows { GrowsNames (names_view functions.old.items) (names_view functions.new.items) }
{
    if let Some(position) = position {
        let function = function_number(alloc, position.function, functions)?;
        calls.push(Call {
            place: position.place,
            function,
        })?;
    }
    Ok(())
}

/// How many calls two lists have in common at their fronts.
pub(crate) fn common_front(left: &[Call], right: &[Call]) -> usize
    ensures same { take result left.now ≡ take result right.now }
    ensures inside { result ≤ length right.now }
{
    for (index, call) in left.iter().enumerate() {
        if !has_call(right, index, *call) {
            return index;
        }
    }
    left.len()
}

/// Whether this call stands at a place.
fn has_call(calls: &[Call], index: usize, call: Call) -> bool
    ensures { result ≡ true → slice_get calls.now index ≡ Some call }
{
    match calls.get(index) {
        Some(it) => is_same_call(*it, call),
        None => false,
    }
}

fn is_same_call(left: Call, right: Call) -> bool
    ensures { result ≡ true → left ≡ right }
{
    left.function == right.function
        && left.place.line == right.place.line
        && left.place.col == right.place.col
}
