//! A row, and the run that answers it.
ghost use Rattle.std.specs.Prelude.{◌≡◌, IfErr, false};
ghost use Rattle.ispc_debugger.specs.Records.{FitAtEachWidth};

use crate::wanted::WantedWriter;
use debug_traits::CommandReader;
use ispc_debugger::{NewRecord, run_over};
use ispc_options::read_options;
use ispc_refusals::{Refusal, write_refusal};
use lane_report::report;
use std::alloc::{AllocError, Global};
use tests_devices::PieceReader;
use transcript::Ending;

/// A row, as a table has it: its name, the words of a command line, and what the run is given; and all that it writes, its
/// answers, the text of its refusal, or its report.
#[derive(Clone, Copy)]
pub(crate) struct Row<'a> {
    pub(crate) name: &'a str,
    words: &'a str,
    source: &'a [u8],
    input: &'a [u8],
    pub(crate) commands: &'a [u8],
    pub(crate) text: &'a [u8],
}

impl<'a> Row<'a> {
    /// The row of a piece of a table, if that has each field.
    pub(crate) fn read(piece: &'a str) -> Option<Row<'a>> {
        let mut fields = piece.split('@');
        Some(Row {
            name: fields.next()?,
            words: fields.next()?,
            source: fields.next()?.as_bytes(),
            input: fields.next()?.as_bytes(),
            commands: fields.next()?.as_bytes(),
            text: fields.next()?.as_bytes(),
        })
    }

    /// Whether the run, over a record of this kind, writes the row's text and nothing else, and ends at `quit`, with the commands, or
    /// refused.
    pub(crate) fn is_answered<T: NewRecord>(&self, alloc: Global) -> bool
        requires { FitAtEachWidth T.row T.Timeline }
    {
        let mut reader = PieceReader::new(self.commands, 64, self.commands.len() + 1);
        let mut writer = WantedWriter::new(self.text);
        let has_ended = match self.ending::<T, PieceReader<'_>>(alloc, &mut reader, &mut writer) {
            Ok(ending) => matches!(ending, Ending::Quit | Ending::EndOfCommands),
            Err(refusal) => write_refusal(&refusal, &mut writer).is_ok(),
        };
        has_ended && writer.rest().is_empty()
    }

    /// How the run over a record of this kind ends, or the report.
    pub(crate) fn ending<'w, T: NewRecord, R: CommandReader<WantedWriter<'w>>>(
        &self,
        alloc: Global,
        reader: &mut R,
        writer: &mut WantedWriter<'w>,
    ) -> Result<Ending, Refusal>
        requires fresh { R.reads reader.old ≡ 0 }
        requires reader_works { R.has_failed reader.old ≡ false }
        requires writer_works { writer.old.has_failed ≡ false }
        requires fits { FitAtEachWidth T.row T.Timeline }
        ensures { IfErr result (λ _. writer.new.has_failed ≡ false) }
    {
        let words: Result<Vec<&str>, AllocError> = self
            .words
            .split_ascii_whitespace()
            .collect(alloc);
        let Ok(words) = words else {
            return Err(Refusal::Memory);
        };
        let Ok((options, _)) = read_options(alloc, words.as_slice()) else {
            return Err(Refusal::Memory);
        };
        if options.lane_pure {
            report(alloc, self.source, writer)
        } else {
            run_over::<T, R, WantedWriter<'w>>(
                alloc,
                self.source,
                self.input,
                &options,
                reader,
                writer,
            )
        }
    }
}
