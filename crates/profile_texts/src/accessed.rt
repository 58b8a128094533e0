//! A table of the accesses of elements of arrays.
ghost use Rattle.std.specs.Prelude.{◌≡◌, false, is_err};

use crate::lines::{front_of, line_at};
use crate::parts::Part::{Left, Number, Right, Shown, Text};
use crate::parts::write_parts;
use crate::profile::Subject;
use crate::tables::write_end;
use debug_traits::{AnswerWriter, WriteFault};
use element_accesses::{Access, Way};
use element_touches::AccessCounts;
use lane_counts::Tally;
use lane_picture::StepsEnd;
use std::alloc::{AllocError, Global};

const HEAD: &[u8] =
    b" line array        access      times      lanes   elements consecutive      equal  scattered  source\n";

/// The room of the name of an array.
const NAME_ROOM: usize = 12;

/// The room of what an access does.
const WAY_ROOM: usize = 7;

/// The most bytes of a line of the source in the table.
const MOST_SHOWN: usize = 40;

/// The numbers of the accesses that were made, those first that touch the most elements which no vector load and no broadcast reaches.
///
/// # Errors
///
/// Out of memory.
pub(crate) fn most_scattered_first(
    alloc: Global,
    accesses: &[Access],
) -> Result<Vec<Made>, AllocError> {
    let mut made = Vec::new(alloc);
    for (number, access) in accesses.iter().enumerate() {
        let counts = access.counts();
        if counts.times > 0 {
            made.push(Made { number, counts })?;
        }
    }
    made.sort_by_key(|row| u64::MAX - row.counts.scattered)?;
    Ok(made)
}

/// An access that was made, by its number, with its counts.
#[derive(Clone, Copy, Debug)]
pub(crate) struct Made {
    number: usize,
    counts: AccessCounts,
}

/// Writes a table of accesses, and how many are not counted.
pub(crate) fn write_accesses<O: AnswerWriter>(
    made: &[Made],
    accesses: &[Access],
    lines: &[&[u8]],
    tally: &Tally,
    end: StepsEnd,
    subject: &Subject<'_>,
    writer: &mut O,
) -> Result<(), WriteFault>
    requires works { O.has_failed writer.old ≡ false }
    ensures failed { O.has_failed writer.new ≡ is_err result }
{
    writer.write_all(HEAD)?;
    for (index, row) in made.iter().enumerate() {
        if index < subject.most_rows {
            write_made(*row, accesses, lines, writer)?;
        }
    }
    write_uncounted(accesses, writer)?;
    write_end(tally, end, subject.first_number, writer)
}

/// Writes the row of an access.
fn write_made<O: AnswerWriter>(
    row: Made,
    accesses: &[Access],
    lines: &[&[u8]],
    writer: &mut O,
) -> Result<(), WriteFault>
    requires works { O.has_failed writer.old ≡ false }
    ensures failed { O.has_failed writer.new ≡ is_err result }
{
    let Some(access) = accesses.get(row.number) else {
        return Ok(());
    };
    write_parts(writer, &[Right(u64::from(access.line), 5), Text(b" ")])?;
    write_left(access.name.as_slice(), NAME_ROOM, writer)?;
    writer.write_all(b" ")?;
    write_left(way_of(access.way), WAY_ROOM, writer)?;
    write_counts(row.counts, writer)?;
    write_text(
        front_of(line_at(lines, access.line as usize), MOST_SHOWN),
        writer,
    )
}

/// Writes the line of the source behind the columns.
fn write_text<O: AnswerWriter>(text: &[u8], writer: &mut O) -> Result<(), WriteFault>
    requires works { O.has_failed writer.old ≡ false }
    ensures failed { O.has_failed writer.new ≡ is_err result }
{
    writer.write_all(b"  ")?;
    write_parts(writer, &[Shown(text)])?;
    writer.write_all(b"\n")
}

/// Writes bytes at the left of a column of so many.
fn write_left<O: AnswerWriter>(bytes: &[u8], room: usize, writer: &mut O) -> Result<(), WriteFault>
    requires works { O.has_failed writer.old ≡ false }
    ensures failed { O.has_failed writer.new ≡ is_err result }
{
    write_parts(writer, &[Left(bytes, room)])
}

/// Writes the columns of some counts.
fn write_counts<O: AnswerWriter>(counts: AccessCounts, writer: &mut O) -> Result<(), WriteFault>
    requires works { O.has_failed writer.old ≡ false }
    ensures failed { O.has_failed writer.new ≡ is_err result }
{
    let parts = [
        Right(counts.times, 10),
        Right(counts.lanes, 11),
        Right(counts.elements, 11),
        Right(counts.consecutive, 12),
        Right(counts.equal, 11),
        Right(counts.scattered, 11),
    ];
    write_parts(writer, &parts)
}

/// Writes how many accesses are not counted, if there are some.
fn write_uncounted<O: AnswerWriter>(accesses: &[Access], writer: &mut O) -> Result<(), WriteFault>
    requires works { O.has_failed writer.old ≡ false }
    ensures failed { O.has_failed writer.new ≡ is_err result }
{
    let mut count = 0u64;
    for access in accesses {
        if !access.is_sure {
            count = count.saturating_add(1);
        }
    }
    match count {
        0 => Ok(()),
        1 => writer.write_all(b"1 access is not counted: it stands behind &&, || or ?\n"),
        _ => {
            let parts = [
                Number(count),
                Text(b" accesses are not counted: they stand behind &&, || or ?\n"),
            ];
            write_parts(writer, &parts)
        }
    }
}

/// What an access does.
pub(crate) fn way_of(way: Way) -> &'static [u8] {
    match way {
        Way::Reads => b"reads",
        Way::Writes => b"writes",
        Way::Changes => b"changes",
    }
}
