//! The local variables of a frame, as the debugger lists those of the top one.
ghost use Rattle.std.specs.Prelude.{◌≡◌, ◌++◌, IfOk};
ghost use Rattle.gang_model.specs.Types.Tree.{Variable};
ghost use Rattle.gang_model.specs.Debugger.Debugger.{Debugger, Setting, now};
ghost use Rattle.gang_model.specs.Texts.Text.{locals_lines, or_none, shown_line, whole};
ghost use Rattle.debug_traits.specs.Frames.{ShowsNamedAt, scope_at, state_at};
ghost use Rattle.adapter_replies.specs.Console.{locals_text};
ghost use Rattle.adapter_replies.specs.Told.{IsTold};

use crate::expressions::plain_value;
use crate::scopes::{place_after, variable_here};
use crate::texts::{all_words, push_words, without_end};
use adapter_requests::Reply;
use debug_traits::{FramedMachine, NamedVariable};
use std::alloc::{AllocError, Global};
use value_digits::Digits;

/// A line for each local variable of the frame at a depth, or that there is none.
pub(crate) fn locals_reply<M: FramedMachine>(
    alloc: Global,
    machine: &M,
    depth: usize,
) -> Result<Reply, AllocError>
    ensures { (s : Setting) (d : Debugger) → M.stands machine.now s d → IfOk result (IsTold (locals_text s d depth)) }
{
    let lines = local_lines(alloc, machine, depth)?;
    let lines = without_end(or_none(lines.as_slice()));
    Ok(plain_value(String::from_utf8_lossy(alloc, lines)?))
}

/// Lines, or one that says that there is none.
fn or_none(lines: &[u8]) -> &[u8]
    ensures { result.now ≡ or_none lines.now }
{
    match lines {
        [] => b"none\n",
        [_, ..] => lines,
    }
}

/// A line for each local variable in scope in the frame at a depth, parameters left out.
fn local_lines<M: FramedMachine>(
    alloc: Global,
    machine: &M,
    depth: usize,
) -> Result<Vec<u8>, AllocError>
    ensures { (s : Setting) (d : Debugger) → M.stands machine.now s d
        → IfOk result (λ lines. lines.items ≡ locals_lines (state_at depth (now s d)) (scope_at s.program depth (now s d))) }
{
    let mut lines = Vec::new(alloc);
    let mut from = 0;
    while let Some(next) = machine.next_local_at(depth, from) {
        push_local(alloc, machine, depth, variable_here(next), &mut lines)?;
        from = place_after(next);
    }
    Ok(lines)
}

/// Puts the line of a variable of the frame at a depth behind others: its name, and its values.
fn push_local<M: FramedMachine>(
    alloc: Global,
    machine: &M,
    depth: usize,
    named: NamedVariable<'_>,
    lines: &mut Vec<u8>,
) -> Result<(), AllocError>
    ensures { (s : Setting) (d : Debugger) (v : Variable) → M.stands machine.now s d → ShowsNamedAt s d depth v named.entry
        → IfOk result (λ _. lines.new.items ≡ lines.old.items ++ shown_line (state_at depth (now s d)) (whole v) v) }
{
    let words = all_words(alloc, machine, depth, named.shown)?;
    let mut values = String::new(alloc);
    push_words(
        alloc,
        Digits::Decimal,
        named.shown.value_type,
        words.as_slice(),
        &mut values,
    )?;
    lines.extend_from_slice(named.name)?;
    lines.extend_from_slice(b" =")?;
    lines.extend_from_slice(values.as_bytes())?;
    lines.extend_from_slice(b"\n")?;
    Ok(())
}
