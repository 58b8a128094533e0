//! A picture of a run.
ghost use Rattle.std.specs.Prelude.{◌≡◌, false, is_err, IfOk, OnErr};
ghost use Rattle.gang_model.specs.Debugger.Debugger.{Debugger, Setting};
ghost use Rattle.debug_session.specs.Sessions.{StandsFor};
ghost use Rattle.lane_picture.specs.Pictures.{HasDrawn, TellsEnd, has_failed};
ghost use Rattle.lane_picture.specs.Tries.{HasBegun, end_view};

use crate::bands::write_bands;
use crate::columns::{Seen, StepsEnd, see_steps};
use crate::frame::{
    write_end, write_head, write_lane_names, write_legend, write_lines, write_step_numbers,
};
use crate::layout::Layout;
use crate::parts::Part::{Any, Text};
use crate::parts::write_parts;
use crate::sheet::Sheet;
use crate::source::lines_of;
use crate::strip::write_strip;
use crate::tracks::write_tracks;
use debug_commands::Target;
use debug_session::Session;
use debug_traits::{AnswerWriter, Fault, RecordedMachine, WriteFault};
use std::alloc::{AllocError, Global};

/// Whether a picture stands alone or in a page.
#[derive(Clone, Copy, Debug, PartialEq, Eq)]
pub enum Form {
    /// SVG.
    Image,
    /// HTML, with the picture in it.
    Page,
}

/// What a picture shows.
#[derive(Clone, Copy, Debug)]
pub struct Subject<'a> {
    /// The name of the source.
    pub title: &'a [u8],
    pub source: &'a [u8],
    /// A variable whose values are shown below.
    pub watched: Option<Target<'a>>,
    /// The number of the first step.
    pub first_number: u32,
    /// The most steps that are done.
    pub most_steps: u32,
    /// How many steps a row has; 0 is read as 1. Where there are more, rows stand one under the other.
    pub row_steps: u32,
    pub form: Form,
}

/// How the drawing of a picture ended.
#[derive(Clone, Copy, Debug, PartialEq, Eq)]
pub enum PictureEnd {
    /// The program has ended.
    Ended,
    /// The next step faults.
    AtFault(Fault),
    /// As many steps were done as may be.
    StepLimit,
    /// The writer failed.
    WriteFault,
}

/// Does one step after another, up to the end of the program, a fault or the most steps, and then writes a picture of them: the
/// lines of the source downwards, the steps across, and a track for each lane. A long run has rows, one under the other, each with its
/// own lines.
///
/// # Errors
///
/// Out of memory. Some of the steps may have been done then, and nothing is written.
pub fn draw<M: RecordedMachine, O: AnswerWriter>(
    alloc: Global,
    session: &mut Session<M>,
    subject: &Subject<'_>,
    writer: &mut O,
) -> Result<PictureEnd, AllocError>
    requires works { O.has_failed writer.old ≡ false }
    ensures drawn { IfOk result (λ end. (s : Setting) (d : Debugger) → StandsFor M.stands session.old s d
        → HasDrawn M.stands s subject.now.most_steps d end session.new) }
    ensures failed { IfOk result (λ end. O.has_failed writer.new ≡ has_failed end) }
    ensures memory { OnErr result ((s : Setting) (d : Debugger) → StandsFor M.stands session.old s d
        → HasBegun M.stands s subject.now.most_steps d session.new) }
    ensures unwritten { OnErr result (writer.new ≡ writer.old) }
{
    let lines = lines_of(alloc, subject.source)?;
    let (seen, end) = see_steps(alloc, session, subject.watched, subject.most_steps)?;
    let sheet = Sheet::new(
        alloc,
        &seen,
        &lines,
        subject.row_steps,
        subject.first_number,
    )?;
    let drawing = Drawing {
        seen: &seen,
        end,
        lines: lines.as_slice(),
        sheet: &sheet,
    };
    match write_picture(drawing, subject, writer) {
        Ok(()) => Ok(told(end)),
        Err(_) => Ok(PictureEnd::WriteFault),
    }
}

/// What was seen of a run, the lines of its source, and where they stand.
#[derive(Clone, Copy)]
struct Drawing<'a> {
    seen: &'a Seen,
    end: StepsEnd,
    lines: &'a [&'a [u8]],
    sheet: &'a Sheet,
}

fn told(end: StepsEnd) -> PictureEnd
    ensures told { TellsEnd result (end_view end) }
    ensures works { has_failed result ≡ false }
{
    match end {
        StepsEnd::Ended => PictureEnd::Ended,
        StepsEnd::AtFault(fault) => PictureEnd::AtFault(fault),
        StepsEnd::StepLimit => PictureEnd::StepLimit,
    }
}

/// Writes the picture, in a page if one is asked for.
fn write_picture<O: AnswerWriter>(
    drawing: Drawing<'_>,
    subject: &Subject<'_>,
    writer: &mut O,
) -> Result<(), WriteFault>
    requires works { O.has_failed writer.old ≡ false }
    ensures failed { O.has_failed writer.new ≡ is_err result }
{
    if subject.form == Form::Image {
        return write_image(drawing, subject, writer);
    }
    let head = [
        Text(b"<!DOCTYPE html>\n<html lang=\"en\">\n<head><meta charset=\"utf-8\"/><title>"),
        Any(subject.title),
        Text(b"</title></head>\n<body>\n"),
    ];
    write_parts(writer, &head)?;
    write_image(drawing, subject, writer)?;
    writer.write_all(b"</body>\n</html>\n")
}

fn write_image<O: AnswerWriter>(
    drawing: Drawing<'_>,
    subject: &Subject<'_>,
    writer: &mut O,
) -> Result<(), WriteFault>
    requires works { O.has_failed writer.old ≡ false }
    ensures failed { O.has_failed writer.new ≡ is_err result }
{
    let sheet = drawing.sheet;
    write_head(sheet, subject.title, writer)?;
    for row in &sheet.rows {
        write_row(drawing, row, subject.watched, writer)?;
    }
    write_legend(sheet, writer)?;
    let steps = drawing.seen.columns.len();
    let before = (subject.first_number as usize).saturating_sub(1);
    write_end(before.saturating_add(steps), drawing.end, sheet, writer)?;
    writer.write_all(b"</svg>\n")
}

/// Writes a row of the picture.
fn write_row<O: AnswerWriter>(
    drawing: Drawing<'_>,
    layout: &Layout,
    watched: Option<Target<'_>>,
    writer: &mut O,
) -> Result<(), WriteFault>
    requires works { O.has_failed writer.old ≡ false }
    ensures failed { O.has_failed writer.new ≡ is_err result }
{
    let (seen, lines) = (drawing.seen, drawing.lines);
    write_lines(lines, layout, writer)?;
    write_bands(seen, lines, layout, writer)?;
    write_lane_names(seen.width, layout, writer)?;
    write_step_numbers(layout.columns(seen).len(), layout, writer)?;
    write_tracks(seen, lines, drawing.end, layout, writer)?;
    match watched {
        Some(watched) => write_strip(seen, watched, layout, writer),
        None => Ok(()),
    }
}
