//! The report of a source.
ghost use Rattle.std.specs.Prelude.{◌≡◌, false, IfOk, IfErr};
ghost use Rattle.gang_model.specs.Texts.Text.{Bytes};
ghost use Rattle.lane_report.specs.Refusals.{IsRight};
ghost use Rattle.lane_report.specs.Reports.{IsReport, Tells};

use crate::judging::checked_source;
use crate::lines::write_lines;
use debug_traits::AnswerWriter;
use ispc_refusals::Refusal;
use source_answers::SourceFault;
use std::alloc::Global;
use transcript::Ending;
use type_check::lane_pure_functions;

/// Writes for each function of a source, in order, a line that says whether it is lane-pure: `lane-pure LINE:COL NAME: yes` or
/// `no`, with the place of its name. Of a function with `yes` each lane of a call does alone, in a gang of any width, what it
/// does among the others.
///
/// It ends with `EndOfCommands`, or with `WriteFault` where the writer fails; a strict front of the lines has been written then.
/// No command is read.
///
/// # Errors
///
/// Why the source is refused, from its tokens to its types, or out of memory. Nothing is written then.
pub fn report<O: AnswerWriter>(
    alloc: Global,
    source: &[u8],
    writer: &mut O,
) -> Result<Ending, Refusal>
    requires { O.has_failed writer.old ≡ false }
    ensures report { IfOk result (λ ending. (out : Bytes) × IsReport source.now out
        × Tells out ending (O.written writer.old) (O.written writer.new) (O.has_failed writer.new)) }
    ensures refused { IfErr result (λ refusal. IsRight source.now refusal × (writer.new ≡ writer.old)) }
{
    let checked = match checked_source(alloc, source) {
        Ok(checked) => checked,
        Err(SourceFault::Refused(refusal)) => return Err(Refusal::Source(refusal)),
        Err(SourceFault::Memory) => return Err(Refusal::Memory),
    };
    let Ok(answers) = lane_pure_functions(alloc, &checked) else {
        return Err(Refusal::Memory);
    };
    match write_lines(checked.tree(), &answers, writer) {
        Ok(()) => Ok(Ending::EndOfCommands),
        Err(_) => Ok(Ending::WriteFault),
    }
}
