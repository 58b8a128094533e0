//! Breakpoints and watches, as answers list them.
ghost use Rattle.std.specs.Prelude.{◌≡◌, ◌++◌, ℕ, List, Some, false, decimal, is_err, slice_get};
ghost use Rattle.gang_model.specs.Types.Tree.{Variable};
ghost use Rattle.gang_model.specs.Debugger.Debugger as model;
ghost use Rattle.gang_model.specs.Debugger.Debugger.{Debugger, Setting};
ghost use Rattle.gang_model.specs.Texts.Text.{line, or_none, stop_lines, stop_text};
ghost use Rattle.debug_traits.specs.Devices.{Writes};
ghost use Rattle.debug_traits.specs.Machines.{file_variables};
ghost use Rattle.debug_answers.specs.Meanings.{AreStops, IsStop};

use crate::target_texts::write_target_line;
use crate::texts::write_pieces;
use debug_answers::{NumberedStop, Stop};
use debug_commands::Target;
use debug_traits::{AnswerWriter, RecordedMachine, WriteFault};
use itoa::Buffer;

/// Writes a line for each breakpoint and watch, or `none`.
pub(crate) fn write_stops<M: RecordedMachine, O: AnswerWriter>(
    stops: &[NumberedStop],
    machine: &M,
    writer: &mut O,
) -> Result<(), WriteFault>
    requires works { O.has_failed writer.old ≡ false }
    ensures said { (s : Setting) (d : Debugger) (meant : List (ℕ × model.Stop)) → M.stands machine.now s d → AreStops s stops.now meant
        → Writes (or_none (stop_lines meant)) (O.written writer.old) (O.written writer.new) (O.has_failed writer.new) result }
    ensures failed { O.has_failed writer.new ≡ is_err result }
{
    if stops.is_empty() {
        return writer.write_all(b"none\n");
    }
    write_stop_lines(stops, machine, writer)
}

/// Writes a line for each breakpoint and watch.
fn write_stop_lines<M: RecordedMachine, O: AnswerWriter>(
    stops: &[NumberedStop],
    machine: &M,
    writer: &mut O,
) -> Result<(), WriteFault>
    requires works { O.has_failed writer.old ≡ false }
    ensures said { (s : Setting) (d : Debugger) (meant : List (ℕ × model.Stop)) → M.stands machine.now s d → AreStops s stops.now meant
        → Writes (stop_lines meant) (O.written writer.old) (O.written writer.new) (O.has_failed writer.new) result }
    ensures failed { O.has_failed writer.new ≡ is_err result }
{
    for stop in stops {
        write_stop(*stop, machine, writer)?;
    }
    Ok(())
}

/// Writes a line: a number, and its breakpoint or watch.
fn write_stop<M: RecordedMachine, O: AnswerWriter>(
    numbered: NumberedStop,
    machine: &M,
    writer: &mut O,
) -> Result<(), WriteFault>
    requires works { O.has_failed writer.old ≡ false }
    ensures said { (s : Setting) (d : Debugger) (number : ℕ) (meant : model.Stop) → M.stands machine.now s d
        → numbered.number ≡ number → IsStop s numbered.stop meant
        → Writes (line (decimal number ++ stop_text meant)) (O.written writer.old) (O.written writer.new) (O.has_failed writer.new) result }
    ensures failed { O.has_failed writer.new ≡ is_err result }
{
    let mut digits = Buffer::new();
    let number = digits.format(numbered.number).as_bytes();
    match numbered.stop {
        Stop::Line(line) => write_breakpoint(number, line, writer),
        Stop::Watch { variable, at } => {
            let name = name_in_file(variable, machine);
            write_target_line(&[number, b" watch "], Target { name, at }, writer)
        }
    }
}

/// Writes a line: the digits of a number, and the breakpoint on a line.
fn write_breakpoint<O: AnswerWriter>(
    number: &[u8],
    source_line: u32,
    writer: &mut O,
) -> Result<(), WriteFault>
    requires { O.has_failed writer.old ≡ false }
    ensures { Writes (line (number.now ++ stop_text (model.Line source_line)))
        (O.written writer.old) (O.written writer.new) (O.has_failed writer.new) result }
{
    let mut digits = Buffer::new();
    let source_line = digits.format(source_line).as_bytes();
    write_pieces(writer, &[number, b" breakpoint line ", source_line, b"\n"])
}

/// The name of the file-scope variable of a number, nothing where there is none.
fn name_in_file<M: RecordedMachine>(variable: usize, machine: &M) -> &[u8]
    ensures { (s : Setting) (d : Debugger) (v : Variable) → M.stands machine.now s d → slice_get (file_variables s) variable ≡ Some v
        → result.now ≡ v.name }
{
    match machine.file_variable(variable) {
        Some(named) => named.name,
        None => b"",
    }
}
