//! Local variables, as answers list them.
ghost use Rattle.std.specs.Prelude.{◌≡◌, false, flat_map, is_err};
ghost use Rattle.gang_model.specs.Types.Tree.{Variable};
ghost use Rattle.gang_model.specs.Debugger.Debugger.{Debugger, Setting, now};
ghost use Rattle.gang_model.specs.Debugger.Positions.{scope_now};
ghost use Rattle.gang_model.specs.Texts.Text.{locals_lines, or_none, shown_line, whole};
ghost use Rattle.debug_traits.specs.Devices.{Writes};
ghost use Rattle.debug_traits.specs.Machines.{IsShown};

use crate::value_texts::write_shown;
use debug_commands::Target;
use debug_traits::{AnswerWriter, NamedVariable, NextLocal, RecordedMachine, WriteFault};

/// Writes a line for each local variable in scope, parameters left out, or `none`.
pub(crate) fn write_locals<M: RecordedMachine, O: AnswerWriter>(
    machine: &M,
    writer: &mut O,
) -> Result<(), WriteFault>
    requires works { O.has_failed writer.old ≡ false }
    ensures said { (s : Setting) (d : Debugger) → M.stands machine.now s d
        → Writes (or_none (locals_lines (now s d) (scope_now s.program (now s d))))
        (O.written writer.old) (O.written writer.new) (O.has_failed writer.new) result }
    ensures failed { O.has_failed writer.new ≡ is_err result }
{
    match machine.next_local(0) {
        None => writer.write_all(b"none\n"),
        Some(local) => {
            write_whole(local.variable, machine, writer)?;
            write_local_lines(local.next, machine, writer)
        }
    }
}

/// Writes a line for each local variable in scope from a place on, parameters left out.
fn write_local_lines<M: RecordedMachine, O: AnswerWriter>(
    from: usize,
    machine: &M,
    writer: &mut O,
) -> Result<(), WriteFault>
    requires works { O.has_failed writer.old ≡ false }
    ensures said { (s : Setting) (d : Debugger) → M.stands machine.now s d
        → Writes (flat_map (λ v. shown_line (now s d) (whole v) v) (M.locals_from machine.now s d from))
        (O.written writer.old) (O.written writer.new) (O.has_failed writer.new) result }
    ensures failed { O.has_failed writer.new ≡ is_err result }
{
    let mut place = from;
    while let Some(local) = machine.next_local(place) {
        write_whole(local.variable, machine, writer)?;
        place = place_after(local);
    }
    Ok(())
}

/// The place from which on the variables after this one are.
fn place_after(local: NextLocal<'_>) -> usize
    ensures { result ≡ local.entry.next }
{
    local.next
}

/// Writes a line: the name of a variable, and its values.
fn write_whole<M: RecordedMachine, O: AnswerWriter>(
    variable: NamedVariable<'_>,
    machine: &M,
    writer: &mut O,
) -> Result<(), WriteFault>
    requires works { O.has_failed writer.old ≡ false }
    ensures said { (s : Setting) (d : Debugger) (v : Variable) → M.stands machine.now s d → variable.entry.name.now ≡ v.name → IsShown s d v variable.entry.shown
        → Writes (shown_line (now s d) (whole v) v) (O.written writer.old) (O.written writer.new) (O.has_failed writer.new) result }
    ensures failed { O.has_failed writer.new ≡ is_err result }
{
    let target = Target {
        name: variable.name,
        at: None,
    };
    write_shown(target, variable.shown, machine, writer)
}
