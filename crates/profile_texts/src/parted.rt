//! A table of where lanes part, and where they meet again.
ghost use Rattle.std.specs.Prelude.{◌≡◌, false, is_err};

use crate::lines::{front_of, line_at};
use crate::parts::Part::{Right, Shown, Text};
use crate::parts::write_parts;
use crate::profile::Subject;
use crate::tables::write_end;
use debug_traits::{AnswerWriter, WriteFault};
use lane_counts::Tally;
use lane_meetings::Parting;
use lane_picture::StepsEnd;
use std::alloc::{AllocError, Global};

const HEAD: &[u8] = b" line meets at      times steps between  source\n";

/// The most bytes of a line of the source in the table.
const MOST_SHOWN: usize = 48;

/// Partings in the order of the source: by the line where lanes part, and then by the one where they meet again.
///
/// # Errors
///
/// Out of memory.
pub(crate) fn partings_in_order(
    alloc: Global,
    partings: &[Parting],
) -> Result<Vec<Parting>, AllocError> {
    let mut rows = Vec::from_slice(alloc, partings)?;
    rows.sort_by_key(|row| row.meets_at.unwrap_or(usize::MAX))?;
    rows.sort_by_key(|row| row.line)?;
    Ok(rows)
}

/// Partings that are in the order of the source, those first between which most steps lie.
///
/// # Errors
///
/// Out of memory.
pub(crate) fn dearest_partings(
    alloc: Global,
    partings: &[Parting],
) -> Result<Vec<Parting>, AllocError> {
    let mut rows = Vec::from_slice(alloc, partings)?;
    rows.sort_by_key(|row| u64::MAX - row.between)?;
    Ok(rows)
}

/// Writes a table of partings.
pub(crate) fn write_partings<O: AnswerWriter>(
    rows: &[Parting],
    lines: &[&[u8]],
    tally: &Tally,
    end: StepsEnd,
    subject: &Subject<'_>,
    writer: &mut O,
) -> Result<(), WriteFault>
    requires works { O.has_failed writer.old ≡ false }
    ensures failed { O.has_failed writer.new ≡ is_err result }
{
    writer.write_all(HEAD)?;
    for (index, row) in rows.iter().enumerate() {
        if index < subject.most_rows {
            write_parting(*row, lines, writer)?;
        }
    }
    let (times, between) = sums(rows);
    write_parts(writer, &[Text(b"  all         ")])?;
    write_counts(times, between, writer)?;
    writer.write_all(b"\n")?;
    write_end(tally, end, subject.first_number, writer)
}

/// How many partings there are, and the steps between, all together.
fn sums(rows: &[Parting]) -> (u64, u64) {
    let mut sums = (0u64, 0u64);
    for row in rows {
        sums.0 = sums.0.saturating_add(row.times);
        sums.1 = sums.1.saturating_add(row.between);
    }
    sums
}

/// Writes the row of a parting.
fn write_parting<O: AnswerWriter>(
    row: Parting,
    lines: &[&[u8]],
    writer: &mut O,
) -> Result<(), WriteFault>
    requires works { O.has_failed writer.old ≡ false }
    ensures failed { O.has_failed writer.new ≡ is_err result }
{
    let met = match row.meets_at {
        Some(line) => Right(line as u64, 9),
        None => Text(b"        -"),
    };
    write_parts(writer, &[Right(row.line as u64, 5), met])?;
    write_counts(row.times, row.between, writer)?;
    let text = front_of(line_at(lines, row.line), MOST_SHOWN);
    write_parts(writer, &[Text(b"  "), Shown(text), Text(b"\n")])
}

fn write_counts<O: AnswerWriter>(times: u64, between: u64, writer: &mut O) -> Result<(), WriteFault>
    requires works { O.has_failed writer.old ≡ false }
    ensures failed { O.has_failed writer.new ≡ is_err result }
{
    write_parts(writer, &[Right(times, 11), Right(between, 14)])
}
