//! Breakpoints and watches that came or went, and a history limit that changed.
ghost use Rattle.std.specs.Prelude.{◌≡◌, false, is_err};
ghost use Rattle.gang_model.specs.Debugger.Debugger as model;
ghost use Rattle.gang_model.specs.Debugger.Debugger.{Debugger, Setting};
ghost use Rattle.gang_model.specs.Texts.Text.{text};
ghost use Rattle.debug_commands.specs.Views.{target_view};
ghost use Rattle.debug_traits.specs.Devices.{Writes};

use crate::target_texts::write_target_line;
use crate::texts::write_pieces;
use debug_commands::Target;
use debug_traits::{AnswerWriter, WriteFault};
use itoa::Buffer;

/// Writes a line: the number and the line of a breakpoint.
pub(crate) fn write_breaks_at<O: AnswerWriter>(
    number: u32,
    line: u32,
    writer: &mut O,
) -> Result<(), WriteFault>
    requires works { O.has_failed writer.old ≡ false }
    ensures said { (s : Setting) (d : Debugger) → Writes (text s (model.BreaksAt number line) d)
        (O.written writer.old) (O.written writer.new) (O.has_failed writer.new) result }
    ensures failed { O.has_failed writer.new ≡ is_err result }
{
    let mut number_digits = Buffer::new();
    let mut line_digits = Buffer::new();
    let pieces = [
        b"breakpoint ".as_slice(),
        number_digits.format(number).as_bytes(),
        b" at line ",
        line_digits.format(line).as_bytes(),
        b"\n",
    ];
    write_pieces(writer, &pieces)
}

/// Writes a line: the number and the target of a watch.
pub(crate) fn write_watches<O: AnswerWriter>(
    number: u32,
    target: Target<'_>,
    writer: &mut O,
) -> Result<(), WriteFault>
    requires works { O.has_failed writer.old ≡ false }
    ensures said { (s : Setting) (d : Debugger) → Writes (text s (model.Watches number (target_view target.entry)) d)
        (O.written writer.old) (O.written writer.new) (O.has_failed writer.new) result }
    ensures failed { O.has_failed writer.new ≡ is_err result }
{
    let mut digits = Buffer::new();
    let number = digits.format(number).as_bytes();
    write_target_line(&[b"watch ", number, b": "], target, writer)
}

/// Writes a line: the number that went, or that all went.
pub(crate) fn write_deleted<O: AnswerWriter>(
    number: Option<u32>,
    writer: &mut O,
) -> Result<(), WriteFault>
    requires works { O.has_failed writer.old ≡ false }
    ensures said { (s : Setting) (d : Debugger) → Writes (text s (model.Deleted number) d)
        (O.written writer.old) (O.written writer.new) (O.has_failed writer.new) result }
    ensures failed { O.has_failed writer.new ≡ is_err result }
{
    let mut digits = Buffer::new();
    match number {
        None => writer.write_all(b"deleted all\n"),
        Some(number) => write_pieces(
            writer,
            &[b"deleted ", digits.format(number).as_bytes(), b"\n"],
        ),
    }
}

/// Writes a line: how many events can be taken back at most.
pub(crate) fn write_history<O: AnswerWriter>(limit: u32, writer: &mut O) -> Result<(), WriteFault>
    requires works { O.has_failed writer.old ≡ false }
    ensures said { (s : Setting) (d : Debugger) → Writes (text s (model.KeepsHistory limit) d)
        (O.written writer.old) (O.written writer.new) (O.has_failed writer.new) result }
    ensures failed { O.has_failed writer.new ≡ is_err result }
{
    let mut digits = Buffer::new();
    write_pieces(
        writer,
        &[b"history ", digits.format(limit).as_bytes(), b"\n"],
    )
}
