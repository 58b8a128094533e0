//! The grounds of columns: darker where a call is deeper, and a band for each round.
ghost use Rattle.std.specs.Prelude.{◌≡◌, false, is_err};

use crate::columns::{Column, Seen};
use crate::layout::Layout;
use crate::parts::Part::{Number, Text};
use crate::parts::write_parts;
use crate::source::{StepKind, kind_at};
use debug_traits::{AnswerWriter, WriteFault};

/// How much darker, in hundredths, a column gets with each frame more, and how many frames count.
const DARKER: usize = 6;

const MOST_FRAMES: usize = 7;

/// Writes the grounds of the columns of a row.
pub(crate) fn write_bands<O: AnswerWriter>(
    seen: &Seen,
    lines: &[&[u8]],
    layout: &Layout,
    writer: &mut O,
) -> Result<(), WriteFault>
    requires works { O.has_failed writer.old ≡ false }
    ensures failed { O.has_failed writer.new ≡ is_err result }
{
    for (index, column) in layout.columns(seen).iter().enumerate() {
        write_depth(index, column, layout, writer)?;
        if kind_at(lines, column.place) == StepKind::Round {
            write_round(index, column, layout, writer)?;
        }
    }
    Ok(())
}

/// Writes the ground of a column in a call.
fn write_depth<O: AnswerWriter>(
    index: usize,
    column: &Column,
    layout: &Layout,
    writer: &mut O,
) -> Result<(), WriteFault>
    requires works { O.has_failed writer.old ≡ false }
    ensures failed { O.has_failed writer.new ≡ is_err result }
{
    if column.depth <= 1 {
        return Ok(());
    }
    let darker = (column.depth - 1).min(MOST_FRAMES) * DARKER;
    write_ground(index, layout, writer)?;
    let parts = [
        Text(b" fill=\"#000000\" fill-opacity=\""),
        Text(if darker < 10 { b"0.0" } else { b"0." }),
        Number(darker),
        Text(b"\"><title>depth "),
        Number(column.depth),
        Text(b"</title></rect>\n"),
    ];
    write_parts(writer, &parts)
}

/// Writes the band of a foreach form's step.
fn write_round<O: AnswerWriter>(
    index: usize,
    column: &Column,
    layout: &Layout,
    writer: &mut O,
) -> Result<(), WriteFault>
    requires works { O.has_failed writer.old ≡ false }
    ensures failed { O.has_failed writer.new ≡ is_err result }
{
    write_ground(index, layout, writer)?;
    let parts = [
        Text(b" fill=\"#f0e442\" fill-opacity=\"0.45\"><title>round, line "),
        Number(column.place.line as usize),
        Text(b"</title></rect>\n"),
    ];
    write_parts(writer, &parts)
}

/// Writes a rectangle of the height of all lines of the row, up to its colour.
fn write_ground<O: AnswerWriter>(
    index: usize,
    layout: &Layout,
    writer: &mut O,
) -> Result<(), WriteFault>
    requires works { O.has_failed writer.old ≡ false }
    ensures failed { O.has_failed writer.new ≡ is_err result }
{
    let top = layout.lines_top();
    let parts = [
        Text(b"<rect x=\""),
        Number(layout.column_left(index)),
        Text(b"\" y=\""),
        Number(top),
        Text(b"\" width=\""),
        Number(layout.sizes.column_width),
        Text(b"\" height=\""),
        Number(layout.lines_end().saturating_sub(top)),
        Text(b"\""),
    ];
    write_parts(writer, &parts)
}
