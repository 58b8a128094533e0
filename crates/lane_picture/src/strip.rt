//! The values of the watched variable, below the lines of a row.
ghost use Rattle.std.specs.Prelude.{◌≡◌, false, is_err};

use crate::columns::{Column, Seen, Value};
use crate::layout::Layout;
use crate::parts::Part::{Any, Number, Text};
use crate::parts::write_parts;
use crate::words::value_colour;
use debug_commands::Target;
use debug_traits::{AnswerWriter, WriteFault};
use gang_types::{IntType, value};
use itoa::Buffer;

/// The most characters of a value.
pub(crate) fn longest_value(seen: &Seen) -> usize {
    let longest = seen
        .columns
        .iter()
        .map(|column| longest_of(seen.values_at(column)))
        .max();
    longest.unwrap_or(0)
}

fn longest_of(values: &[Value]) -> usize {
    let longest = values.iter().map(|value| characters_of(*value)).max();
    longest.unwrap_or(0)
}

fn characters_of(given: Value) -> usize {
    if given.value_type == IntType::Bool {
        return 5;
    }
    let mut digits = Buffer::new();
    digits.format(value(given.value_type, given.word)).len()
}

/// Writes the values of the watched variable below a row: the name of each row of values, and each value where it is new or the row of
/// steps begins.
pub(crate) fn write_strip<O: AnswerWriter>(
    seen: &Seen,
    watched: Target<'_>,
    layout: &Layout,
    writer: &mut O,
) -> Result<(), WriteFault>
    requires works { O.has_failed writer.old ≡ false }
    ensures failed { O.has_failed writer.new ≡ is_err result }
{
    let first = watched.at.map_or(0, |index| index as usize);
    for row in 0..layout.value_rows {
        let number = first.saturating_add(row);
        let colour = value_colour(seen.is_by_lanes(), number);
        write_row_name(row, number, colour, watched, layout, writer)?;
    }
    let mut before: &[Value] = &[];
    for (index, column) in layout.columns(seen).iter().enumerate() {
        let values = seen.values_at(column);
        write_values(index, first, values, before, layout, writer)?;
        before = values;
    }
    Ok(())
}

/// Writes the name of a row of values.
fn write_row_name<'a, O: AnswerWriter>(
    row: usize,
    number: usize,
    colour: &'a [u8],
    watched: Target<'a>,
    layout: &Layout,
    writer: &mut O,
) -> Result<(), WriteFault>
    requires works { O.has_failed writer.old ≡ false }
    ensures failed { O.has_failed writer.new ≡ is_err result }
{
    let baseline = layout.value_top(row).saturating_add(10);
    let parts = [
        Text(b"<text class=\"value\" x=\""),
        Number(layout.sizes.left.saturating_sub(8)),
        Text(b"\" y=\""),
        Number(baseline),
        Text(b"\" text-anchor=\"end\" fill=\""),
        Text(colour),
        Text(b"\">"),
        Any(watched.name),
    ];
    write_parts(writer, &parts)?;
    if layout.value_rows > 1 || watched.at.is_some() {
        write_parts(writer, &[Text(b"["), Number(number), Text(b"]")])?;
    }
    writer.write_all(b"</text>\n")
}

/// Writes the values before a step that are new; the first one is that of this lane or element.
fn write_values<O: AnswerWriter>(
    index: usize,
    first: usize,
    values: &[Value],
    before: &[Value],
    layout: &Layout,
    writer: &mut O,
) -> Result<(), WriteFault>
    requires works { O.has_failed writer.old ≡ false }
    ensures failed { O.has_failed writer.new ≡ is_err result }
{
    for (row, value) in values.iter().enumerate() {
        if before.get(row) != Some(value) {
            let colour = value_colour(value.is_of_lane, first.saturating_add(row));
            write_value(index, row, colour, *value, layout, writer)?;
        }
    }
    Ok(())
}

fn write_value<O: AnswerWriter>(
    index: usize,
    row: usize,
    colour: &[u8],
    given: Value,
    layout: &Layout,
    writer: &mut O,
) -> Result<(), WriteFault>
    requires works { O.has_failed writer.old ≡ false }
    ensures failed { O.has_failed writer.new ≡ is_err result }
{
    let parts = [
        Text(b"<text class=\"value\" x=\""),
        Number(layout.middle(index)),
        Text(b"\" y=\""),
        Number(layout.value_top(row).saturating_add(10)),
        Text(b"\" text-anchor=\"middle\" fill=\""),
        Text(colour),
        Text(b"\">"),
    ];
    write_parts(writer, &parts)?;
    write_word(given, writer)?;
    writer.write_all(b"</text>\n")
}

/// Writes a value as the debugger prints it.
fn write_word<O: AnswerWriter>(given: Value, writer: &mut O) -> Result<(), WriteFault>
    requires works { O.has_failed writer.old ≡ false }
    ensures failed { O.has_failed writer.new ≡ is_err result }
{
    if given.value_type == IntType::Bool {
        return writer.write_all(if given.word == 0 { b"false" } else { b"true" });
    }
    let mut digits = Buffer::new();
    let number = value(given.value_type, given.word);
    writer.write_all(digits.format(number).as_bytes())
}
