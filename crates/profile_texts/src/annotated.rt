//! The source with its counts.
ghost use Rattle.std.specs.Prelude.{◌≡◌, false, is_err};

use crate::colours::{ink, plain};
use crate::parts::Part::{Right, Share, Shown, Text};
use crate::parts::write_parts;
use crate::profile::Subject;
use crate::tables::write_end;
use debug_traits::{AnswerWriter, WriteFault};
use lane_counts::{Counts, Tally, share};
use lane_meetings::Parting;
use lane_picture::StepsEnd;

/// A bar of all its cells, and behind it one of none.
const BAR: &[u8] = b"########........";

const CELLS: usize = 8;

/// Writes the source, and before each line that has steps how many, the share of the lanes, a bar of it, and marks where lanes meet
/// again and where they part.
pub(crate) fn write_annotated<O: AnswerWriter>(
    lines: &[&[u8]],
    partings: &[Parting],
    tally: &Tally,
    end: StepsEnd,
    subject: &Subject<'_>,
    writer: &mut O,
) -> Result<(), WriteFault>
    requires works { O.has_failed writer.old ≡ false }
    ensures failed { O.has_failed writer.new ≡ is_err result }
{
    for (index, line) in lines.iter().enumerate() {
        let number = index.saturating_add(1);
        match tally.lines().get(number) {
            Some(counts) if counts.steps > 0 => {
                write_front(*counts, mark(*counts, number, partings), subject, writer)?
            }
            _ => writer.write_all(b"                             ")?,
        }
        let parts = [
            Right(number as u64, 6),
            Text(b"  "),
            Shown(line),
            Text(b"\n"),
        ];
        write_parts(writer, &parts)?;
    }
    write_end(tally, end, subject.first_number, writer)
}

/// Writes what stands before a line that has steps.
fn write_front<O: AnswerWriter>(
    counts: Counts,
    mark: &[u8],
    subject: &Subject<'_>,
    writer: &mut O,
) -> Result<(), WriteFault>
    requires works { O.has_failed writer.old ≡ false }
    ensures failed { O.has_failed writer.new ≡ is_err result }
{
    let share = share(counts, subject.width);
    let parts = [
        Right(counts.steps, 10),
        Text(ink(share, subject.has_colours)),
        Share(share),
        Text(b"  "),
        Text(bar(share)),
        Text(plain(subject.has_colours)),
        Text(mark),
    ];
    write_parts(writer, &parts)
}

/// The marks of a line: `>` where lanes meet again, and `<` where they part.
fn mark(counts: Counts, line: usize, partings: &[Parting]) -> &'static [u8] {
    match (meets_at(line, partings), counts.partings > 0) {
        (true, true) => b"><",
        (true, false) => b" >",
        (false, true) => b" <",
        (false, false) => b"  ",
    }
}

/// Whether the lanes of some parting meet again at a line.
fn meets_at(line: usize, partings: &[Parting]) -> bool {
    for parting in partings {
        if parting.meets_at == Some(line) {
            return true;
        }
    }
    false
}

/// A bar of eight cells, as many of which are filled as the share has whole eighths.
fn bar(share: u64) -> &'static [u8] {
    let filled = (share.saturating_mul(CELLS as u64) / 1000) as usize;
    let begin = CELLS.saturating_sub(filled);
    let end = begin.saturating_add(CELLS);
    BAR.get(begin..end).unwrap_or(&[])
}
