//! What is told of the counts of a run.
ghost use Rattle.std.specs.Prelude.{◌≡◌, false, is_err, IfOk, OnErr};

use crate::accessed::{most_scattered_first, write_accesses};
use crate::annotated::write_annotated;
use crate::formed::write_forms;
use crate::json::write_json;
use crate::lines::lines_of;
use crate::parted::{dearest_partings, partings_in_order, write_partings};
use crate::rows::dearest_first;
use crate::tables::{write_functions, write_lines};
use debug_traits::{AnswerWriter, WriteFault};
use element_accesses::Access;
use lane_counts::Tally;
use lane_meetings::Parting;
use lane_picture::StepsEnd;
use std::alloc::{AllocError, Global};

/// What is told of a run.
#[derive(Clone, Copy, Debug, PartialEq, Eq)]
pub enum Form {
    /// A table of lines.
    Lines,
    /// A table of functions.
    Functions,
    /// A table of foreach forms.
    Forms,
    /// A table of the accesses whose lanes may touch different elements.
    Accesses,
    /// A table of where lanes part, and where they meet again.
    Partings,
    /// The source, with the counts of each line before it.
    Annotated,
    /// JSON.
    Json,
}

/// What is profiled: the source with its name, how many lanes a gang has, the number of the first step that is counted, how many rows a
/// table has at most, and whether shares have colours, as on a terminal.
#[derive(Clone, Copy, Debug)]
pub struct Subject<'a> {
    pub title: &'a [u8],
    pub source: &'a [u8],
    pub width: usize,
    pub first_number: u32,
    pub most_rows: usize,
    pub has_colours: bool,
}

/// What was counted of a run: its steps, what its accesses touch, where its lanes parted and met again, and how it ended.
#[derive(Clone, Copy)]
pub struct Counted<'a> {
    pub tally: &'a Tally,
    pub accesses: &'a [Access],
    pub partings: &'a [Parting],
    pub end: StepsEnd,
}

/// Writes what was counted of a run, and how it ended.
///
/// # Errors
///
/// Out of memory, and then nothing is written. What was written of it is told inside.
pub fn write_profile<O: AnswerWriter>(
    alloc: Global,
    form: Form,
    counted: &Counted<'_>,
    subject: &Subject<'_>,
    writer: &mut O,
) -> Result<Result<(), WriteFault>, AllocError>
    requires works { O.has_failed writer.old ≡ false }
    ensures failed { IfOk result (λ written. O.has_failed writer.new ≡ is_err written) }
    ensures unwritten { OnErr result (writer.new ≡ writer.old) }
{
    let (tally, accesses, end) = (counted.tally, counted.accesses, counted.end);
    let lines = lines_of(alloc, subject.source)?;
    let by_line = dearest_first(alloc, tally.lines(), subject.width)?;
    let by_function = dearest_first(alloc, tally.own(), subject.width)?;
    let by_form = dearest_first(alloc, tally.forms().inside(), subject.width)?;
    let by_access = most_scattered_first(alloc, accesses)?;
    let in_order = partings_in_order(alloc, counted.partings)?;
    let by_parting = dearest_partings(alloc, &in_order)?;
    let written = match form {
        Form::Lines => write_lines(&by_line, &lines, tally, end, subject, writer),
        Form::Functions => write_functions(&by_function, tally, end, subject, writer),
        Form::Forms => write_forms(&by_form, tally, end, subject, writer),
        Form::Accesses => {
            write_accesses(&by_access, accesses, &lines, tally, end, subject, writer)
        }
        Form::Partings => write_partings(&by_parting, &lines, tally, end, subject, writer),
        Form::Annotated => write_annotated(&lines, &in_order, tally, end, subject, writer),
        Form::Json => write_json(counted, &in_order, subject, writer),
    };
    Ok(written)
}
