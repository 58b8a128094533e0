//! A run: a session is opened, and command lines are answered.
ghost use Rattle.std.specs.Prelude.{◌≡◌, ◌⊎◌, ℕ, ◌+◌, ◌≤◌, true, false, List, Ok, IfOk, IfErr};
ghost use Rattle.std.specs.Io.KnownBytes.{Appends};
ghost use Rattle.gang_model.specs.Debugger.Debugger.{fresh};
ghost use Rattle.gang_model.specs.Debugger.Events.{Row};
ghost use Rattle.gang_model.specs.Texts.Endings.{Ends};
ghost use Rattle.gang_model.specs.Texts.Text.{Bytes};
ghost use Rattle.gang_model.specs.Texts.Transcript.{setting};
ghost use Rattle.gang_model.specs.Types.Tree.{Program as ModelProgram};
ghost use Rattle.transcript.specs.Endings.{ending_of};
ghost use Rattle.transcript.specs.Order.{TakesTurns};
ghost use Rattle.ispc_options.specs.Ranges.{AreInRange};
ghost use Rattle.ispc_debugger.specs.Records.{Fit, FitAtEachWidth};
ghost use Rattle.ispc_debugger.specs.Runs.{AreAcceptedAs, AreAcceptedOnce, AreNotAccepted, HaveOneTranscript, IsRight, asked_of, lanes_of, options_view};

use crate::opening::open_session_over;
use crate::records::NewRecord;
use debug_traits::{AnswerWriter, CommandReader, READS};
use ispc_options::{Options, Width};
use ispc_refusals::Refusal;
use std::alloc::Global;
use transcript::{Ending, answer_lines};
use undo_log::DeltaRing;

/// Compiles a source, and answers the command lines that the reader gives. It begins with the exported function of the name
/// that the options ask for, or with the first exported one where they ask for none, and with the rows of the input.
///
/// A run that is not refused writes a transcript of the debugger of the definitions: after each command it shows the state
/// that the source reaches by the steps not taken back, and taking one back restores every word, up to the history limit. Only
/// a command that raises this limit may be refused for memory, and then it changes nothing. A source and an input have one
/// program, one entry and one list of rows, and lines have one transcript in which no command is refused for memory.
/// Refused for the source or the input, it names the right fault, and nothing is read or written.
///
/// # Errors
///
/// Why the run is refused: its source, the entry that it asks for, its input, in this order, or out of memory. A read or write that
/// fails ends a run, and is no error.
pub fn run<R: CommandReader<O>, O: AnswerWriter>(
    alloc: Global,
    source: &[u8],
    input: &[u8],
    options: &Options<'_>,
    reader: &mut R,
    writer: &mut O,
) -> Result<Ending, Refusal>
    requires range { AreInRange options.now }
    requires fresh { R.reads reader.old ≡ 0 }
    requires reader_works { R.has_failed reader.old ≡ false }
    requires writer_works { O.has_failed writer.old ≡ false }
    ensures transcript { IfOk result (λ ending. (program : ModelProgram) × (entry : ℕ) × (rows : List Row)
        × AreAcceptedAs source.now (asked_of options.now) input.now program entry rows
        × ((out : List ℕ) × Appends (O.written writer.old) (O.written writer.new) out
        × Ends (setting program entry rows (options_view options.now)) (fresh options.now.history) (ending_of ending) (R.left reader.old) (R.left reader.new) out)) }
    // The source and the input have no other program, entry and rows.
    ensures one { AreAcceptedOnce source.now (asked_of options.now) input.now }
    // Of the transcripts of any lines just one has no answer C12.
    ensures one_transcript { IfOk result (λ ending. (lines : List Bytes) → HaveOneTranscript source.now (asked_of options.now) input.now (options_view options.now) lines) }
    ensures refused { IfErr result (λ refusal. IsRight source.now (asked_of options.now) input.now refusal
        × ((reader.new ≡ reader.old) × (writer.new ≡ writer.old))) }
    // Where they are refused they have none, unless memory ran out.
    ensures none { IfErr result (λ refusal. (refusal ≡ Refusal.Memory) ⊎ AreNotAccepted source.now (asked_of options.now) input.now) }
    ensures read_fault { result ≡ Ok Ending.ReadFault
        → (R.has_failed reader.new ≡ true)
        ⊎ ((R.reads reader.new ≡ READS) × (R.pieces reader.new ≡ R.pieces reader.old + READS)) }
    ensures write_fault { result ≡ Ok Ending.WriteFault → O.has_failed writer.new ≡ true }
    ensures reads { R.reads reader.new ≤ READS }
    // Before each read all whole lines that had come were answered, and nothing else was written; and there is no read after one
    // of them quits, nor after one that gave nothing.
    ensures order { IfOk result (λ _. (program : ModelProgram) × (entry : ℕ) × (rows : List Row)
        × AreAcceptedAs source.now (asked_of options.now) input.now program entry rows
        × TakesTurns (setting program entry rows (options_view options.now)) (fresh options.now.history)
        (O.written writer.old) (R.heard reader.old) (R.heard reader.new)) }
{
    run_over::<DeltaRing, R, O>(alloc, source, input, options, reader, writer)
}

/// Such a run whose history is kept in a record of any kind: of a type that can be made for it, and that leaves a machine and a session
/// no larger than memory.
///
/// # Errors
///
/// Those of `run`.
pub fn run_over<T: NewRecord, R: CommandReader<O>, O: AnswerWriter>(
    alloc: Global,
    source: &[u8],
    input: &[u8],
    options: &Options<'_>,
    reader: &mut R,
    writer: &mut O,
) -> Result<Ending, Refusal>
    requires range { AreInRange options.now }
    requires fresh { R.reads reader.old ≡ 0 }
    requires reader_works { R.has_failed reader.old ≡ false }
    requires writer_works { O.has_failed writer.old ≡ false }
    requires fits { FitAtEachWidth T.row T.Timeline }
    ensures transcript { IfOk result (λ ending. (program : ModelProgram) × (entry : ℕ) × (rows : List Row)
        × AreAcceptedAs source.now (asked_of options.now) input.now program entry rows
        × ((out : List ℕ) × Appends (O.written writer.old) (O.written writer.new) out
        × Ends (setting program entry rows (options_view options.now)) (fresh options.now.history) (ending_of ending) (R.left reader.old) (R.left reader.new) out)) }
    // The source and the input have no other program, entry and rows.
    ensures one { AreAcceptedOnce source.now (asked_of options.now) input.now }
    // Of the transcripts of any lines just one has no answer C12.
    ensures one_transcript { IfOk result (λ ending. (lines : List Bytes) → HaveOneTranscript source.now (asked_of options.now) input.now (options_view options.now) lines) }
    ensures refused { IfErr result (λ refusal. IsRight source.now (asked_of options.now) input.now refusal
        × ((reader.new ≡ reader.old) × (writer.new ≡ writer.old))) }
    // Where they are refused they have none, unless memory ran out.
    ensures none { IfErr result (λ refusal. (refusal ≡ Refusal.Memory) ⊎ AreNotAccepted source.now (asked_of options.now) input.now) }
    ensures read_fault { result ≡ Ok Ending.ReadFault
        → (R.has_failed reader.new ≡ true)
        ⊎ ((R.reads reader.new ≡ READS) × (R.pieces reader.new ≡ R.pieces reader.old + READS)) }
    ensures write_fault { result ≡ Ok Ending.WriteFault → O.has_failed writer.new ≡ true }
    ensures reads { R.reads reader.new ≤ READS }
    // Before each read all whole lines that had come were answered, and nothing else was written; and there is no read after one
    // of them quits, nor after one that gave nothing.
    ensures order { IfOk result (λ _. (program : ModelProgram) × (entry : ℕ) × (rows : List Row)
        × AreAcceptedAs source.now (asked_of options.now) input.now program entry rows
        × TakesTurns (setting program entry rows (options_view options.now)) (fresh options.now.history)
        (O.written writer.old) (R.heard reader.old) (R.heard reader.new)) }
{
    match options.width {
        Width::Four => run_wide::<4, T, R, O>(alloc, source, input, options, reader, writer),
        Width::Eight => run_wide::<8, T, R, O>(alloc, source, input, options, reader, writer),
        Width::Sixteen => run_wide::<16, T, R, O>(alloc, source, input, options, reader, writer),
    }
}

/// The run at the width of the options.
fn run_wide<const W: usize, T: NewRecord, R: CommandReader<O>, O: AnswerWriter>(
    alloc: Global,
    source: &[u8],
    input: &[u8],
    options: &Options<'_>,
    reader: &mut R,
    writer: &mut O,
) -> Result<Ending, Refusal>
    requires width { W ≡ lanes_of options.now.width }
    requires range { AreInRange options.now }
    requires fresh { R.reads reader.old ≡ 0 }
    requires reader_works { R.has_failed reader.old ≡ false }
    requires writer_works { O.has_failed writer.old ≡ false }
    requires fits { Fit W.row T.row T.Timeline }
    ensures transcript { IfOk result (λ ending. (program : ModelProgram) × (entry : ℕ) × (rows : List Row)
        × AreAcceptedAs source.now (asked_of options.now) input.now program entry rows
        × ((out : List ℕ) × Appends (O.written writer.old) (O.written writer.new) out
        × Ends (setting program entry rows (options_view options.now)) (fresh options.now.history) (ending_of ending) (R.left reader.old) (R.left reader.new) out)) }
    ensures refused { IfErr result (λ refusal. IsRight source.now (asked_of options.now) input.now refusal
        × ((reader.new ≡ reader.old) × (writer.new ≡ writer.old))) }
    ensures read_fault { result ≡ Ok Ending.ReadFault
        → (R.has_failed reader.new ≡ true)
        ⊎ ((R.reads reader.new ≡ READS) × (R.pieces reader.new ≡ R.pieces reader.old + READS)) }
    ensures write_fault { result ≡ Ok Ending.WriteFault → O.has_failed writer.new ≡ true }
    ensures reads { R.reads reader.new ≤ READS }
    ensures order { IfOk result (λ _. (program : ModelProgram) × (entry : ℕ) × (rows : List Row)
        × AreAcceptedAs source.now (asked_of options.now) input.now program entry rows
        × TakesTurns (setting program entry rows (options_view options.now)) (fresh options.now.history)
        (O.written writer.old) (R.heard reader.old) (R.heard reader.new)) }
{
    let mut session = open_session_over::<W, T>(alloc, source, input, options)?;
    Ok(answer_lines(&mut session, reader, writer))
}
