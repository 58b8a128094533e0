//! Tables of lines and of functions.
ghost use Rattle.std.specs.Prelude.{◌≡◌, false, is_err};

use crate::colours::{ink, plain};
use crate::lines::{front_of, line_at};
use crate::parts::Part::{Left, Number, Right, Share, Shown, Text};
use crate::parts::write_parts;
use crate::profile::Subject;
use crate::rows::{Row, counts_at};
use debug_traits::{AnswerWriter, Fault, WriteFault};
use gang_types::FaultName;
use lane_counts::{Counts, Tally, lost, share};
use lane_picture::StepsEnd;

/// The most bytes of a line of the source in a table.
const MOST_SHOWN: usize = 48;

/// The most bytes of the name of a function in a table, where it has room.
const NAME_ROOM: usize = 16;

/// Writes a table of lines.
pub(crate) fn write_lines<O: AnswerWriter>(
    rows: &[Row],
    lines: &[&[u8]],
    tally: &Tally,
    end: StepsEnd,
    subject: &Subject<'_>,
    writer: &mut O,
) -> Result<(), WriteFault>
    requires works { O.has_failed writer.old ≡ false }
    ensures failed { O.has_failed writer.new ≡ is_err result }
{
    writer.write_all(b" line     steps lane-steps  share      short  parted       lost  source\n")?;
    for (index, row) in rows.iter().enumerate() {
        if index < subject.most_rows {
            write_parts(writer, &[Right(row.number as u64, 5)])?;
            write_counts(row.counts, subject, writer)?;
            let text = front_of(line_at(lines, row.number), MOST_SHOWN);
            write_parts(writer, &[Text(b"  "), Shown(text), Text(b"\n")])?;
        }
    }
    writer.write_all(b"  all")?;
    write_counts(tally.all(), subject, writer)?;
    writer.write_all(b"\n")?;
    write_end(tally, end, subject.first_number, writer)
}

/// Writes the columns of some counts.
pub(crate) fn write_counts<O: AnswerWriter>(
    counts: Counts,
    subject: &Subject<'_>,
    writer: &mut O,
) -> Result<(), WriteFault>
    requires works { O.has_failed writer.old ≡ false }
    ensures failed { O.has_failed writer.new ≡ is_err result }
{
    let share = share(counts, subject.width);
    let parts = [
        Right(counts.steps, 10),
        Right(counts.lane_steps, 11),
        Text(ink(share, subject.has_colours)),
        Share(share),
        Text(plain(subject.has_colours)),
        Right(counts.short_steps, 11),
        Right(counts.partings, 8),
        Right(lost(counts, subject.width), 11),
    ];
    write_parts(writer, &parts)
}

/// Writes a table of functions.
pub(crate) fn write_functions<O: AnswerWriter>(
    rows: &[Row],
    tally: &Tally,
    end: StepsEnd,
    subject: &Subject<'_>,
    writer: &mut O,
) -> Result<(), WriteFault>
    requires works { O.has_failed writer.old ≡ false }
    ensures failed { O.has_failed writer.new ≡ is_err result }
{
    writer.write_all(
        b"function             steps lane-steps  share      short  parted       lost   in all  share     calls      lanes\n",
    )?;
    for (index, row) in rows.iter().enumerate() {
        if index < subject.most_rows {
            let whole = counts_at(tally.whole(), row.number);
            write_parts(writer, &[Left(tally.names().name(row.number), NAME_ROOM)])?;
            write_counts(row.counts, subject, writer)?;
            write_whole(whole, subject, writer)?;
            write_calls(counts_at(tally.calls(), row.number), writer)?;
        }
    }
    write_parts(writer, &[Left(b"all", NAME_ROOM)])?;
    write_counts(tally.all(), subject, writer)?;
    write_whole(tally.all(), subject, writer)?;
    writer.write_all(b"\n")?;
    write_end(tally, end, subject.first_number, writer)
}

/// Writes the columns of what a function takes with what it calls.
fn write_whole<O: AnswerWriter>(
    counts: Counts,
    subject: &Subject<'_>,
    writer: &mut O,
) -> Result<(), WriteFault>
    requires works { O.has_failed writer.old ≡ false }
    ensures failed { O.has_failed writer.new ≡ is_err result }
{
    let share = share(counts, subject.width);
    let parts = [
        Right(counts.steps, 9),
        Text(ink(share, subject.has_colours)),
        Share(share),
        Text(plain(subject.has_colours)),
    ];
    write_parts(writer, &parts)
}

/// Writes how often a function was called, and by how many lanes.
fn write_calls<O: AnswerWriter>(calls: Counts, writer: &mut O) -> Result<(), WriteFault>
    requires works { O.has_failed writer.old ≡ false }
    ensures failed { O.has_failed writer.new ≡ is_err result }
{
    let parts = [
        Right(calls.steps, 10),
        Right(calls.lane_steps, 11),
        Text(b"\n"),
    ];
    write_parts(writer, &parts)
}

/// How many steps were done or tried, those before the first one that is counted, which has this number, among them.
fn steps_done(tally: &Tally, first_number: u32) -> u64 {
    let before = u64::from(first_number.saturating_sub(1));
    before.saturating_add(tally.all().steps)
}

/// Writes how a run ended of which the steps from this number on are counted.
pub(crate) fn write_end<O: AnswerWriter>(
    tally: &Tally,
    end: StepsEnd,
    first_number: u32,
    writer: &mut O,
) -> Result<(), WriteFault>
    requires works { O.has_failed writer.old ≡ false }
    ensures failed { O.has_failed writer.new ≡ is_err result }
{
    let steps = steps_done(tally, first_number);
    match end {
        StepsEnd::Ended => {
            let parts = [
                Text(b"the program ended after "),
                Number(steps),
                Text(b" steps\n"),
            ];
            write_parts(writer, &parts)
        }
        StepsEnd::AtFault(fault) => write_fault(fault, steps, writer),
        StepsEnd::StepLimit => {
            let parts = [
                Text(b"the run was left after "),
                Number(steps),
                Text(b" steps\n"),
            ];
            write_parts(writer, &parts)
        }
    }
}

/// Writes the fault of a step, by its number.
fn write_fault<O: AnswerWriter>(fault: Fault, step: u64, writer: &mut O) -> Result<(), WriteFault>
    requires works { O.has_failed writer.old ≡ false }
    ensures failed { O.has_failed writer.new ≡ is_err result }
{
    let parts = [
        Text(b"step "),
        Number(step),
        Text(b" faults: "),
        Text(fault_words(fault.name)),
        Text(b" in lane "),
        Number(fault.lane as u64),
        Text(b"\n"),
    ];
    write_parts(writer, &parts)
}

/// A fault's number and name.
pub(crate) fn fault_words(name: FaultName) -> &'static [u8] {
    match name {
        FaultName::DivideByZero => b"F1 DivideByZero",
        FaultName::Index => b"F2 Index",
        FaultName::LaneIndex => b"F3 LaneIndex",
        FaultName::Assert => b"F4 Assert",
        FaultName::CallDepth => b"F5 CallDepth",
    }
}
