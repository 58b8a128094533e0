//! Values, as answers show them.
ghost use Rattle.std.specs.Prelude.{◌≡◌, false, is_err};
ghost use Rattle.gang_model.specs.Types.Tree.{Variable};
ghost use Rattle.gang_model.specs.Debugger.Debugger.{Debugger, Setting, now, part_shown, shown_words};
ghost use Rattle.gang_model.specs.Texts.Text.{shown_line, word_text};
ghost use Rattle.debug_commands.specs.Views.{target_view};
ghost use Rattle.debug_traits.specs.Devices.{Writes};
ghost use Rattle.debug_traits.specs.Machines.{IsShown};
ghost use Rattle.debug_answers.specs.Meanings.{IsInside};
ghost use Rattle.debug_texts.specs.Wording.{value_text, values_text};

use crate::target_texts::write_target;
use debug_commands::Target;
use debug_traits::{AnswerWriter, RecordedMachine, Shown, WriteFault};
use gang_types::{IntType, value};
use itoa::Buffer;

/// Writes a line: a target, and the values of the variable or of its part.
pub(crate) fn write_shown<M: RecordedMachine, O: AnswerWriter>(
    target: Target<'_>,
    shown: Shown,
    machine: &M,
    writer: &mut O,
) -> Result<(), WriteFault>
    requires works { O.has_failed writer.old ≡ false }
    ensures said { (s : Setting) (d : Debugger) (v : Variable) → M.stands machine.now s d → IsShown s d v shown → IsInside target.entry.at shown.count
        → Writes (shown_line (now s d) (target_view target.entry) v) (O.written writer.old) (O.written writer.new) (O.has_failed writer.new) result }
    ensures failed { O.has_failed writer.new ≡ is_err result }
{
    write_target(target, b" =", writer)?;
    write_values(target.at, shown, machine, writer)?;
    writer.write_all(b"\n")
}

/// Writes a blank and a value for each word of a variable, or for one of them.
///
/// # Errors
///
/// `WriteFault` where the writer fails or takes 0 bytes; a strict front of the text has been written then.
pub fn write_values<M: RecordedMachine, O: AnswerWriter>(
    at: Option<u32>,
    shown: Shown,
    machine: &M,
    writer: &mut O,
) -> Result<(), WriteFault>
    requires works { O.has_failed writer.old ≡ false }
    ensures said { (s : Setting) (d : Debugger) (v : Variable) → M.stands machine.now s d → IsShown s d v shown → IsInside at shown.count
        → Writes (values_text shown.value_type (part_shown at (shown_words (now s d) v)))
        (O.written writer.old) (O.written writer.new) (O.has_failed writer.new) result }
    ensures failed { O.has_failed writer.new ≡ is_err result }
{
    match at {
        None => write_words(shown, machine, writer),
        Some(index) => write_blank_and_value(
            shown.value_type,
            machine.word(shown, index as usize),
            writer,
        ),
    }
}

/// Writes a blank and a value for each word of a variable.
fn write_words<M: RecordedMachine, O: AnswerWriter>(
    shown: Shown,
    machine: &M,
    writer: &mut O,
) -> Result<(), WriteFault>
    requires works { O.has_failed writer.old ≡ false }
    ensures said { (s : Setting) (d : Debugger) (v : Variable) → M.stands machine.now s d → IsShown s d v shown
        → Writes (values_text shown.value_type (shown_words (now s d) v))
        (O.written writer.old) (O.written writer.new) (O.has_failed writer.new) result }
    ensures failed { O.has_failed writer.new ≡ is_err result }
{
    for index in 0..shown.count {
        write_blank_and_value(shown.value_type, machine.word(shown, index), writer)?;
    }
    Ok(())
}

/// Writes a blank and the value of a word.
fn write_blank_and_value<O: AnswerWriter>(
    value_type: IntType,
    word: u64,
    writer: &mut O,
) -> Result<(), WriteFault>
    requires { O.has_failed writer.old ≡ false }
    ensures { Writes (value_text value_type word) (O.written writer.old) (O.written writer.new) (O.has_failed writer.new) result }
{
    writer.write_all(b" ")?;
    write_value(value_type, word, writer)
}

/// Writes the value of a word of this type: `true`, `false` or a number.
///
/// # Errors
///
/// `WriteFault` where the writer fails or takes 0 bytes; a strict front of the value has been written then.
pub fn write_value<O: AnswerWriter>(
    value_type: IntType,
    word: u64,
    writer: &mut O,
) -> Result<(), WriteFault>
    requires { O.has_failed writer.old ≡ false }
    ensures { Writes (word_text value_type word) (O.written writer.old) (O.written writer.new) (O.has_failed writer.new) result }
{
    if value_type == IntType::Bool {
        return writer.write_all(if word == 0 { b"false" } else { b"true" });
    }
    let mut digits = Buffer::new();
    let number = value(value_type, word);
    writer.write_all(digits.format(number).as_bytes())
}
