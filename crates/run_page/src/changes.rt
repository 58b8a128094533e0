//! The changes of a moment as JSON.
ghost use Rattle.std.specs.Prelude.{◌≡◌, false, is_err, IfOk, slice_get};
ghost use Rattle.std.specs.Io.KnownBytes.{Appends};
ghost use Rattle.run_page.specs.ChangeTexts.{added_text, end_mark, goes_on, row_mark};
ghost use Rattle.run_page.specs.RecordText.{changes_text, type_or_plain};

use crate::variables::Variable;
use crate::views::Change;
use debug_traits::{AnswerWriter, WriteFault};
use gang_types::{IntType, value};
use json_texts::Part::{Number, Text, Whole};
use json_texts::write_parts;

/// Writes changes: a list for each row of words of a variable that are new, with its number, the first part and the words; and for
/// one that is gone a list of its number.
pub(crate) fn write_changes<O: AnswerWriter>(
    variables: &[Variable],
    changes: &[Change],
    writer: &mut O,
) -> Result<(), WriteFault>
    requires works { O.has_failed writer.old ≡ false }
    ensures written { IfOk result (λ _. Appends (O.written writer.old) (O.written writer.new) (changes_text variables.now changes.now)) }
    ensures failed { O.has_failed writer.new ≡ is_err result }
{
    writer.write_all(b"[")?;
    let mut before = None;
    for change in changes {
        write_change(variables, before, *change, writer)?;
        before = Some(*change);
    }
    writer.write_all(end_mark(before))
}

/// Writes a change: behind the one before it where that is of the part before this one, else in a row of its own.
fn write_change<O: AnswerWriter>(
    variables: &[Variable],
    before: Option<Change>,
    change: Change,
    writer: &mut O,
) -> Result<(), WriteFault>
    requires works { O.has_failed writer.old ≡ false }
    ensures written { IfOk result (λ _. Appends (O.written writer.old) (O.written writer.new) (added_text variables.now before change)) }
    ensures failed { O.has_failed writer.new ≡ is_err result }
{
    match change {
        Change::Gone { variable } => {
            write_parts(writer, &[Text(row_mark(before)), Number(variable)])
        }
        Change::Word {
            variable,
            part,
            word,
        } => {
            let value = Whole(value(type_of(variables, variable), word));
            if goes_on(before, variable, part) {
                return write_parts(writer, &[Text(b","), value]);
            }
            let parts = [
                Text(row_mark(before)),
                Number(variable),
                Text(b","),
                Number(part),
                Text(b","),
                value,
            ];
            write_parts(writer, &parts)
        }
    }
}

/// The type of the variable of a number.
fn type_of(variables: &[Variable], number: usize) -> IntType
    ensures { result ≡ type_or_plain (slice_get variables.now number) }
{
    match variables.get(number) {
        Some(it) => it.shown.value_type,
        None => IntType::Uint64,
    }
}

/// What begins a row, and ends the one before if there is one.
fn row_mark(before: Option<Change>) -> &'static [u8]
    ensures { result.now ≡ row_mark before }
{
    match before {
        None => b"[",
        Some(_) => b"],[",
    }
}

/// What ends the changes.
fn end_mark(before: Option<Change>) -> &'static [u8]
    ensures { result.now ≡ end_mark before }
{
    match before {
        None => b"]",
        Some(_) => b"]]",
    }
}

/// Whether a change is that of the part before this one.
fn goes_on(before: Option<Change>, variable: usize, part: usize) -> bool
    ensures { result ≡ goes_on before variable part }
{
    match before {
        Some(
            Change::Word {
                variable: other,
                part: last,
                word: _,
            },
        ) => other == variable && last as u128 + 1 == part as u128,
        _ => false,
    }
}
