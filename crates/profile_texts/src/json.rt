//! Counts as JSON.
ghost use Rattle.std.specs.Prelude.{◌≡◌, false, is_err};

use crate::accessed::way_of;
use crate::formed::text_of;
use crate::parts::Part::{Number, Percents, Text};
use crate::parts::write_parts;
use crate::profile::{Counted, Subject};
use crate::rows::counts_at;
use crate::tables::fault_words;
use debug_traits::{AnswerWriter, WriteFault};
use element_accesses::Access;
use foreach_forms::Form;
use lane_counts::{Counts, Tally, lost, share, share_of};
use lane_meetings::Parting;
use lane_picture::StepsEnd;
use std::str;

/// Writes the counts of all steps, of each line, of each function, of each foreach form, of each access and of the partings.
pub(crate) fn write_json<O: AnswerWriter>(
    counted: &Counted<'_>,
    partings: &[Parting],
    subject: &Subject<'_>,
    writer: &mut O,
) -> Result<(), WriteFault>
    requires works { O.has_failed writer.old ≡ false }
    ensures failed { O.has_failed writer.new ≡ is_err result }
{
    let tally = counted.tally;
    writer.write_all(b"{\"source\":")?;
    write_string(subject.title, writer)?;
    write_parts(
        writer,
        &[Text(b",\"width\":"), Number(subject.width as u64)],
    )?;
    write_end(counted.end, writer)?;
    writer.write_all(b",\"all\":{")?;
    write_counts(tally.all(), subject.width, writer)?;
    writer.write_all(b"},\n\"lines\":[")?;
    write_lines(tally, subject.width, writer)?;
    writer.write_all(b"],\n\"functions\":[")?;
    write_functions(tally, subject.width, writer)?;
    writer.write_all(b"],\n\"forms\":[")?;
    write_forms(tally, subject.width, writer)?;
    writer.write_all(b"],\n\"accesses\":[")?;
    write_accesses(counted.accesses, writer)?;
    writer.write_all(b"],\n\"partings\":[")?;
    write_partings(partings, writer)?;
    writer.write_all(b"]}\n")
}

fn write_end<O: AnswerWriter>(end: StepsEnd, writer: &mut O) -> Result<(), WriteFault>
    requires works { O.has_failed writer.old ≡ false }
    ensures failed { O.has_failed writer.new ≡ is_err result }
{
    match end {
        StepsEnd::Ended => writer.write_all(b",\"end\":\"ended\""),
        StepsEnd::StepLimit => writer.write_all(b",\"end\":\"limit\""),
        StepsEnd::AtFault(fault) => {
            let parts = [
                Text(b",\"end\":\"fault\",\"fault\":\""),
                Text(fault_words(fault.name)),
                Text(b"\",\"lane\":"),
                Number(fault.lane as u64),
            ];
            write_parts(writer, &parts)
        }
    }
}

fn write_lines<O: AnswerWriter>(
    tally: &Tally,
    width: usize,
    writer: &mut O,
) -> Result<(), WriteFault>
    requires works { O.has_failed writer.old ≡ false }
    ensures failed { O.has_failed writer.new ≡ is_err result }
{
    let mut is_first = true;
    for (number, counts) in tally.lines().iter().enumerate() {
        if counts.steps > 0 {
            write_comma(is_first, writer)?;
            let parts = [Text(b"{\"line\":"), Number(number as u64), Text(b",")];
            write_parts(writer, &parts)?;
            write_counts(*counts, width, writer)?;
            writer.write_all(b"}")?;
            is_first = false;
        }
    }
    Ok(())
}

fn write_functions<O: AnswerWriter>(
    tally: &Tally,
    width: usize,
    writer: &mut O,
) -> Result<(), WriteFault>
    requires works { O.has_failed writer.old ≡ false }
    ensures failed { O.has_failed writer.new ≡ is_err result }
{
    for (number, counts) in tally.own().iter().enumerate() {
        write_comma(number == 0, writer)?;
        writer.write_all(b"{\"name\":")?;
        write_string(tally.names().name(number), writer)?;
        writer.write_all(b",")?;
        write_counts(*counts, width, writer)?;
        let whole = counts_at(tally.whole(), number);
        let calls = counts_at(tally.calls(), number);
        let parts = [
            Text(b",\"steps_with_calls\":"),
            Number(whole.steps),
            Text(b",\"lane_steps_with_calls\":"),
            Number(whole.lane_steps),
            Text(b",\"share_with_calls\":"),
            Percents(share(whole, width)),
            Text(b",\"calls\":"),
            Number(calls.steps),
            Text(b",\"call_lanes\":"),
            Number(calls.lane_steps),
            Text(b"}"),
        ];
        write_parts(writer, &parts)?;
    }
    Ok(())
}

/// Writes the forms that were come to, in the order of the program.
fn write_forms<O: AnswerWriter>(
    tally: &Tally,
    width: usize,
    writer: &mut O,
) -> Result<(), WriteFault>
    requires works { O.has_failed writer.old ≡ false }
    ensures failed { O.has_failed writer.new ≡ is_err result }
{
    let mut is_first = true;
    for (number, form) in tally.forms().forms().iter().enumerate() {
        let inside = counts_at(tally.forms().inside(), number);
        if inside.steps > 0 {
            write_comma(is_first, writer)?;
            write_rounds(*form, counts_at(tally.forms().rounds(), number), writer)?;
            write_unparted(inside, width, writer)?;
            writer.write_all(b"}")?;
            is_first = false;
        }
    }
    Ok(())
}

/// Writes the accesses that were made, in the order of the program, and those that are not counted.
fn write_accesses<O: AnswerWriter>(accesses: &[Access], writer: &mut O) -> Result<(), WriteFault>
    requires works { O.has_failed writer.old ≡ false }
    ensures failed { O.has_failed writer.new ≡ is_err result }
{
    let mut is_first = true;
    for access in accesses {
        if !access.is_sure || access.counts().times > 0 {
            write_comma(is_first, writer)?;
            write_place(access, writer)?;
            write_touches(access, writer)?;
            is_first = false;
        }
    }
    Ok(())
}

/// Writes where an access stands, and what it does.
fn write_place<O: AnswerWriter>(access: &Access, writer: &mut O) -> Result<(), WriteFault>
    requires works { O.has_failed writer.old ≡ false }
    ensures failed { O.has_failed writer.new ≡ is_err result }
{
    let parts = [Text(b"{\"line\":"), Number(u64::from(access.line))];
    write_parts(writer, &parts)?;
    writer.write_all(b",\"array\":")?;
    write_string(&access.name, writer)?;
    let parts = [
        Text(b",\"access\":\""),
        Text(way_of(access.way)),
        Text(b"\""),
    ];
    write_parts(writer, &parts)
}

/// Writes what is counted of an access, if it is counted.
fn write_touches<O: AnswerWriter>(access: &Access, writer: &mut O) -> Result<(), WriteFault>
    requires works { O.has_failed writer.old ≡ false }
    ensures failed { O.has_failed writer.new ≡ is_err result }
{
    if !access.is_sure {
        return writer.write_all(b",\"counted\":false}");
    }
    let counts = access.counts();
    let parts = [
        Text(b",\"counted\":true,\"times\":"),
        Number(counts.times),
        Text(b",\"lanes\":"),
        Number(counts.lanes),
        Text(b",\"elements\":"),
        Number(counts.elements),
        Text(b",\"consecutive\":"),
        Number(counts.consecutive),
        Text(b",\"equal\":"),
        Number(counts.equal),
        Text(b",\"scattered\":"),
        Number(counts.scattered),
        Text(b"}"),
    ];
    write_parts(writer, &parts)
}

/// Writes where lanes part and where they meet again, in the order of the source.
fn write_partings<O: AnswerWriter>(partings: &[Parting], writer: &mut O) -> Result<(), WriteFault>
    requires works { O.has_failed writer.old ≡ false }
    ensures failed { O.has_failed writer.new ≡ is_err result }
{
    let mut is_first = true;
    for parting in partings {
        write_comma(is_first, writer)?;
        write_parting(*parting, writer)?;
        is_first = false;
    }
    Ok(())
}

fn write_parting<O: AnswerWriter>(parting: Parting, writer: &mut O) -> Result<(), WriteFault>
    requires works { O.has_failed writer.old ≡ false }
    ensures failed { O.has_failed writer.new ≡ is_err result }
{
    let met = match parting.meets_at {
        Some(line) => Number(line as u64),
        None => Text(b"null"),
    };
    let parts = [
        Text(b"{\"line\":"),
        Number(parting.line as u64),
        Text(b",\"meets_at\":"),
        met,
        Text(b",\"times\":"),
        Number(parting.times),
        Text(b",\"steps_between\":"),
        Number(parting.between),
        Text(b"}"),
    ];
    write_parts(writer, &parts)
}

/// Writes the members of a form's place and rounds.
fn write_rounds<O: AnswerWriter>(
    form: Form,
    rounds: Counts,
    writer: &mut O,
) -> Result<(), WriteFault>
    requires works { O.has_failed writer.old ≡ false }
    ensures failed { O.has_failed writer.new ≡ is_err result }
{
    let full = rounds.full_steps();
    let parts = [
        Text(b"{\"line\":"),
        Number(u64::from(form.line)),
        Text(b",\"form\":\""),
        Text(text_of(form.word)),
        Text(b"\",\"rounds\":"),
        Number(rounds.steps),
        Text(b",\"full\":"),
        Number(full),
        Text(b",\"full_share\":"),
        Percents(share_of(full, rounds.steps)),
        Text(b","),
    ];
    write_parts(writer, &parts)
}

/// Writes what stands before an element: nothing before the first one.
fn write_comma<O: AnswerWriter>(is_first: bool, writer: &mut O) -> Result<(), WriteFault>
    requires works { O.has_failed writer.old ≡ false }
    ensures failed { O.has_failed writer.new ≡ is_err result }
{
    writer.write_all(if is_first { b"\n" } else { b",\n" })
}

/// Writes the members of counts.
fn write_counts<O: AnswerWriter>(
    counts: Counts,
    width: usize,
    writer: &mut O,
) -> Result<(), WriteFault>
    requires works { O.has_failed writer.old ≡ false }
    ensures failed { O.has_failed writer.new ≡ is_err result }
{
    write_unparted(counts, width, writer)?;
    let parts = [Text(b",\"partings\":"), Number(counts.partings)];
    write_parts(writer, &parts)
}

/// Writes the members of counts without partings.
fn write_unparted<O: AnswerWriter>(
    counts: Counts,
    width: usize,
    writer: &mut O,
) -> Result<(), WriteFault>
    requires works { O.has_failed writer.old ≡ false }
    ensures failed { O.has_failed writer.new ≡ is_err result }
{
    let parts = [
        Text(b"\"steps\":"),
        Number(counts.steps),
        Text(b",\"lane_steps\":"),
        Number(counts.lane_steps),
        Text(b",\"share\":"),
        Percents(share(counts, width)),
        Text(b",\"short_steps\":"),
        Number(counts.short_steps),
        Text(b",\"lost\":"),
        Number(lost(counts, width)),
    ];
    write_parts(writer, &parts)
}

/// Writes bytes as a string. Where they are not UTF-8, each byte outside ASCII is `?`, and so is a control anywhere.
fn write_string<O: AnswerWriter>(bytes: &[u8], writer: &mut O) -> Result<(), WriteFault>
    requires works { O.has_failed writer.old ≡ false }
    ensures failed { O.has_failed writer.new ≡ is_err result }
{
    let is_text = str::from_utf8(bytes).is_ok();
    writer.write_all(b"\"")?;
    for byte in bytes {
        match *byte {
            b'"' => writer.write_all(b"\\\"")?,
            b'\\' => writer.write_all(b"\\\\")?,
            0..=31 | 127 => writer.write_all(b"?")?,
            128..=255 if !is_text => writer.write_all(b"?")?,
            other => writer.write_all(&[other])?,
        }
    }
    writer.write_all(b"\"")
}
