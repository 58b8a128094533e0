//! Runs of one program by gangs of different widths, side by side.
ghost use Rattle.std.specs.Prelude.{◌≡◌, false, is_err, IfOk, OnErr};

use crate::colours::{ink, plain};
use crate::lines::{front_of, line_at, lines_of};
use crate::parts::Part::{Right, Share, Shown, Text};
use crate::parts::write_parts;
use crate::tables::write_end;
use debug_traits::{AnswerWriter, WriteFault};
use lane_counts::{Counts, Tally, share};
use lane_picture::StepsEnd;
use std::alloc::{AllocError, Global};

/// The most bytes of a line of the source.
const MOST_SHOWN: usize = 40;

/// The counts of a run, and how it ended.
#[derive(Clone, Copy)]
pub struct ComparedRun<'a> {
    pub tally: &'a Tally,
    pub end: StepsEnd,
}

/// The same run by gangs of 4, 8 and 16 lanes, the number of the first step that is counted, and whether shares have colours.
#[derive(Clone, Copy)]
pub struct Compared<'a> {
    pub four: ComparedRun<'a>,
    pub eight: ComparedRun<'a>,
    pub sixteen: ComparedRun<'a>,
    pub first_number: u32,
    pub has_colours: bool,
}

/// Writes for each line the steps and the share of the lanes at each width, in the order of the source, and then how each run ended.
///
/// # Errors
///
/// Out of memory, and then nothing is written.
pub fn write_comparison<O: AnswerWriter>(
    alloc: Global,
    compared: Compared<'_>,
    source: &[u8],
    writer: &mut O,
) -> Result<Result<(), WriteFault>, AllocError>
    requires works { O.has_failed writer.old ≡ false }
    ensures failed { IfOk result (λ written. O.has_failed writer.new ≡ is_err written) }
    ensures unwritten { OnErr result (writer.new ≡ writer.old) }
{
    let lines = lines_of(alloc, source)?;
    Ok(write_rows(&lines, compared, writer))
}

fn write_rows<O: AnswerWriter>(
    lines: &[&[u8]],
    compared: Compared<'_>,
    writer: &mut O,
) -> Result<(), WriteFault>
    requires works { O.has_failed writer.old ≡ false }
    ensures failed { O.has_failed writer.new ≡ is_err result }
{
    writer.write_all(
        b"          4 lanes           8 lanes          16 lanes\n line     steps  share     steps  share     steps  share  source\n",
    )?;
    for number in 0..lines.len().saturating_add(1) {
        let counts = [
            counts_at(compared.four.tally, number),
            counts_at(compared.eight.tally, number),
            counts_at(compared.sixteen.tally, number),
        ];
        if counts.iter().any(|counts| counts.steps > 0) {
            write_parts(writer, &[Right(number as u64, 5)])?;
            write_widths(counts, compared.has_colours, writer)?;
            let text = front_of(line_at(lines, number), MOST_SHOWN);
            write_parts(writer, &[Text(b"  "), Shown(text), Text(b"\n")])?;
        }
    }
    writer.write_all(b"  all")?;
    let all = [
        compared.four.tally.all(),
        compared.eight.tally.all(),
        compared.sixteen.tally.all(),
    ];
    write_widths(all, compared.has_colours, writer)?;
    writer.write_all(b"\n")?;
    write_run_end(4, compared.four, compared.first_number, writer)?;
    write_run_end(8, compared.eight, compared.first_number, writer)?;
    write_run_end(16, compared.sixteen, compared.first_number, writer)
}

/// Writes how the run by a gang of so many lanes ended.
fn write_run_end<O: AnswerWriter>(
    lanes: u64,
    run: ComparedRun<'_>,
    first_number: u32,
    writer: &mut O,
) -> Result<(), WriteFault>
    requires works { O.has_failed writer.old ≡ false }
    ensures failed { O.has_failed writer.new ≡ is_err result }
{
    write_parts(writer, &[Right(lanes, 2), Text(b" lanes: ")])?;
    write_end(run.tally, run.end, first_number, writer)
}

fn counts_at(tally: &Tally, line: usize) -> Counts {
    match tally.lines().get(line) {
        Some(counts) => *counts,
        None => Counts::none(),
    }
}

/// Writes the steps and the share at each width.
fn write_widths<O: AnswerWriter>(
    counts: [Counts; 3],
    has_colours: bool,
    writer: &mut O,
) -> Result<(), WriteFault>
    requires works { O.has_failed writer.old ≡ false }
    ensures failed { O.has_failed writer.new ≡ is_err result }
{
    let [four, eight, sixteen] = counts;
    write_column(four, 4, has_colours, writer)?;
    write_column(eight, 8, has_colours, writer)?;
    write_column(sixteen, 16, has_colours, writer)
}

fn write_column<O: AnswerWriter>(
    counts: Counts,
    width: usize,
    has_colours: bool,
    writer: &mut O,
) -> Result<(), WriteFault>
    requires works { O.has_failed writer.old ≡ false }
    ensures failed { O.has_failed writer.new ≡ is_err result }
{
    if counts.steps == 0 {
        return writer.write_all(b"         -      -");
    }
    let share = share(counts, width);
    let parts = [
        Right(counts.steps, 10),
        Text(ink(share, has_colours)),
        Share(share),
        Text(plain(has_colours)),
    ];
    write_parts(writer, &parts)
}
