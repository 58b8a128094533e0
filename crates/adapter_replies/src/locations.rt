//! The lines on which a breakpoint can stand.
ghost use Rattle.std.specs.Prelude.{◌≡◌, ◌+◌, ◌++◌, ◌≤◌, ◌^◌, ◌∷◌, [], IfOk, cond};
ghost use Rattle.gang_model.specs.Debugger.Debugger.{Debugger, Setting};
ghost use Rattle.adapter_replies.specs.Locations.{goto_line, has_place, is_line, line_count, places_among, told_places};

use debug_traits::RecordedMachine;
use std::alloc::{AllocError, Global};

/// How many lines more than one are told of at once.
const MOST_MORE: u32 = 999;

/// The lines from one to another on which a breakpoint can stand, or the one alone; another source has none.
pub(crate) fn locations<M: RecordedMachine>(
    alloc: Global,
    machine: &M,
    is_program: bool,
    first: u32,
    last: Option<u32>,
) -> Result<Vec<u32>, AllocError>
    ensures { (s : Setting) (d : Debugger) → M.stands machine.now s d → IfOk result (λ lines. lines.items ≡ told_places s is_program first last) }
{
    if is_program {
        let last = last.unwrap_or(first);
        places_among(alloc, machine, first, line_count(first, last))
    } else {
        Ok(Vec::new(alloc))
    }
}

/// The line to whose times the program can go: the first one from a line on that has a place; another source has none.
pub(crate) fn goto_line<M: RecordedMachine>(machine: &M, is_program: bool, line: u32) -> Option<u32>
    ensures { (s : Setting) (d : Debugger) → M.stands machine.now s d → result ≡ goto_line s is_program line }
{
    if is_program {
        machine.line_from(line)
    } else {
        None
    }
}

/// How many lines there are from one to another, as many as are told of at once.
fn line_count(first: u32, last: u32) -> u32
    ensures count { result ≡ line_count first last }
    ensures within { first + result ≤ 2 ^ 32 }
{
    if last < first {
        0
    } else {
        (last - first).min(MOST_MORE) + 1
    }
}

/// Those of some lines, one after another, that have a place.
fn places_among<M: RecordedMachine>(
    alloc: Global,
    machine: &M,
    first: u32,
    count: u32,
) -> Result<Vec<u32>, AllocError>
    requires within { first + count ≤ 2 ^ 32 }
    ensures { (s : Setting) (d : Debugger) → M.stands machine.now s d → IfOk result (λ lines. lines.items ≡ places_among s.program first count) }
{
    let mut lines = Vec::new(alloc);
    for index in 0..count {
        push_place(machine, first + index, &mut lines)?;
    }
    Ok(lines)
}

/// Puts a line behind others, if it has a place.
fn push_place<M: RecordedMachine>(
    machine: &M,
    line: u32,
    lines: &mut Vec<u32>,
) -> Result<(), AllocError>
    ensures { (s : Setting) (d : Debugger) → M.stands machine.now s d
        → IfOk result (λ _. lines.new.items ≡ lines.old.items ++ cond (has_place s.program line) (line ∷ []) []) }
{
    if has_place(machine, line) {
        lines.push(line)?;
    }
    Ok(())
}

/// Whether a line has a place.
fn has_place<M: RecordedMachine>(machine: &M, line: u32) -> bool
    ensures { (s : Setting) (d : Debugger) → M.stands machine.now s d → result ≡ has_place s.program line }
{
    is_line(machine.line_from(line), line)
}

/// Whether a line is this one.
fn is_line(found: Option<u32>, line: u32) -> bool
    ensures { result ≡ is_line found line }
{
    match found {
        None => false,
        Some(found) => found == line,
    }
}
