//! The page of a run.
ghost use Rattle.std.specs.Prelude.{◌≡◌, ◌≤◌, false, is_err, IfOk, OnErr};
ghost use Rattle.std.specs.Io.KnownBytes.{Appends};
ghost use Rattle.gang_model.specs.Debugger.Debugger.{Debugger, Setting};
ghost use Rattle.debug_session.specs.Sessions.{StandsFor};
ghost use Rattle.lane_picture.specs.Tries.{HasBegun, end_view};
ghost use Rattle.run_page.specs.Pages as spec;
ghost use Rattle.run_page.specs.Pages.{HasWritten, IsPageOf, TellsEnd, has_failed};

use crate::noting::note_run;
use crate::record::Record;
use crate::texts::TextWriter;
use crate::writing::write_record;
use debug_session::Session;
use debug_texts::write_pieces;
use debug_traits::{AnswerWriter, Fault, FramedMachine, WriteFault};
use lane_picture::StepsEnd;
use std::alloc::{AllocError, Global};

/// What a page is of.
#[derive(Clone, Copy, Debug)]
pub struct Subject<'a> {
    /// The name of the source.
    pub title: &'a [u8],
    pub source: &'a [u8],
    /// The number of the first moment.
    pub first_number: u32,
    /// The most steps that are done.
    pub most_steps: u32,
    /// The most elements of an array that are shown.
    pub most_words: u32,
    /// One of so many moments is told; each where it is 0 or 1.
    pub each: u32,
    /// The numbers of steps near which each moment is told.
    pub around: &'a [u32],
}

/// The viewer of a page: what stands before the record and what stands behind it, each in parts.
#[derive(Clone, Copy, Debug)]
pub struct Viewer<'a> {
    pub front: &'a [&'a [u8]],
    pub rest: &'a [&'a [u8]],
}

/// How the writing of a page ended.
#[derive(Clone, Copy, Debug, PartialEq, Eq)]
pub enum PageEnd {
    /// The program has ended.
    Ended,
    /// The next step faults.
    AtFault(Fault),
    /// As many steps were done as may be.
    StepLimit,
    /// The writer failed.
    WriteFault,
}

/// What was written of a run: how many moments were noted, and how the writing ended.
#[derive(Clone, Copy, Debug, PartialEq, Eq)]
pub struct Written {
    pub moments: usize,
    pub end: PageEnd,
}

/// Does one step after another, up to the end of the program, a fault or the most steps, and then writes a page of them: the viewer
/// round a record in which each moment that is told can be seen.
///
/// # Errors
///
/// Out of memory. Some of the steps may have been done then, and nothing is written.
pub fn write_page<M: FramedMachine, O: AnswerWriter>(
    alloc: Global,
    session: &mut Session<M>,
    subject: &Subject<'_>,
    viewer: &Viewer<'_>,
    writer: &mut O,
) -> Result<Written, AllocError>
    requires works { O.has_failed writer.old ≡ false }
    ensures written { IfOk result (λ page. (s : Setting) (d : Debugger) → StandsFor M.stands session.old s d
        → HasWritten M.stands s subject.now.most_steps d page.end session.new) }
    ensures page { IfOk result (λ page. (s : Setting) (d : Debugger) → StandsFor M.stands session.old s d → 1 ≤ s.limit
        → IsPageOf s d viewer.now subject.now page.moments (has_failed page.end) (O.written writer.old) (O.written writer.new)) }
    ensures failed { IfOk result (λ page. O.has_failed writer.new ≡ has_failed page.end) }
    ensures memory { OnErr result ((s : Setting) (d : Debugger) → StandsFor M.stands session.old s d
        → HasBegun M.stands s subject.now.most_steps d session.new) }
    ensures unwritten { OnErr result (writer.new ≡ writer.old) }
{
    let (record, end) = note_run(alloc, session, subject)?;
    let moments = record.moments.len();
    let text = page_text(alloc, &record, end, subject, viewer)?;
    match writer.write_all(text.as_slice()) {
        Ok(()) => Ok(Written {
            moments,
            end: told(end),
        }),
        Err(_) => Ok(Written {
            moments,
            end: PageEnd::WriteFault,
        }),
    }
}

fn told(end: StepsEnd) -> PageEnd
    ensures told { TellsEnd result (end_view end) }
    ensures works { has_failed result ≡ false }
{
    match end {
        StepsEnd::Ended => PageEnd::Ended,
        StepsEnd::AtFault(fault) => PageEnd::AtFault(fault),
        StepsEnd::StepLimit => PageEnd::StepLimit,
    }
}

/// The text of a page: the viewer, with the record in it.
///
/// # Errors
///
/// Out of memory.
fn page_text(
    alloc: Global,
    kept: &Record,
    end: StepsEnd,
    subject: &Subject<'_>,
    viewer: &Viewer<'_>,
) -> Result<Vec<u8>, AllocError>
    ensures { IfOk result (λ text. text.items ≡ spec.page_text viewer.now subject.now end kept.now) }
{
    let mut writer = TextWriter::new(alloc);
    match write_whole_page(kept, end, subject, viewer, &mut writer) {
        Ok(()) => Ok(writer.into_bytes()),
        Err(_) => Err(AllocError),
    }
}

/// Writes the viewer, with the record in it.
fn write_whole_page<O: AnswerWriter>(
    kept: &Record,
    end: StepsEnd,
    subject: &Subject<'_>,
    viewer: &Viewer<'_>,
    writer: &mut O,
) -> Result<(), WriteFault>
    requires works { O.has_failed writer.old ≡ false }
    ensures written { IfOk result (λ _. Appends (O.written writer.old) (O.written writer.new) (spec.page_text viewer.now subject.now end kept.now)) }
    ensures failed { O.has_failed writer.new ≡ is_err result }
{
    write_pieces(writer, viewer.front)?;
    write_record(kept, end, subject, writer)?;
    write_pieces(writer, viewer.rest)
}
