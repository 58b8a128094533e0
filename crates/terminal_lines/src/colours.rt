//! Lines with the codes of colours between their bytes.
ghost use Rattle.std.specs.Prelude.{◌≡◌, ◌++◌, ◌⊎◌, OnOk};
ghost use Rattle.terminal_lines.specs.Colours as spec;
ghost use Rattle.terminal_lines.specs.Colours.{AddsColoured};

use crate::inks::{Ink, Shape};
use std::alloc::AllocError;

/// Adds a line with the codes of its colours. The bytes of the line stay, and a terminal shows what follows it as before.
///
/// # Errors
///
/// Out of memory. A part of the line may have been added by then.
pub fn put_coloured(line: &[u8], into: &mut Vec<u8>) -> Result<(), AllocError>
    ensures { OnOk result (AddsColoured line.now into.old.items into.new.items) }
{
    let shape = Shape::of(line);
    let mut ink = Ink::Plain;
    for at in 0..line.len() {
        let next = shape.ink(at, line[at]);
        change(ink, next, into)?;
        into.extend_from_slice(&[line[at]])?;
        ink = next;
    }
    change(ink, Ink::Plain, into)
}

/// Adds the code that changes one ink for another, if it is another.
fn change(from: Ink, to: Ink, into: &mut Vec<u8>) -> Result<(), AllocError>
    ensures { OnOk result ((into.new.items ≡ into.old.items) ⊎ (into.new.items ≡ into.old.items ++ spec.code to)) }
{
    if from == to {
        return Ok(());
    }
    into.extend_from_slice(code(to))
}

/// The code of an ink.
fn code(ink: Ink) -> &'static [u8]
    ensures { result.now ≡ spec.code ink }
{
    match ink {
        Ink::Plain => b"\x1b[0m",
        Ink::Active => b"\x1b[32m",
        Ink::Waiting => b"\x1b[90m",
        Ink::Here => b"\x1b[36m",
        Ink::Changed => b"\x1b[33m",
    }
}
