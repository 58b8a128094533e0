//! Why a run is refused, and how it is told.
ghost use Rattle.std.specs.Prelude.{◌≡◌, ◌++◌, codes, decimal, false};
ghost use Rattle.debug_traits.specs.Devices.{Writes};
ghost use Rattle.gang_model.specs.Texts.InputText.{TooLarge};
ghost use Rattle.gang_model.specs.Texts.Text as text;
ghost use Rattle.gang_model.specs.Texts.RunRefusals.{FromInput, FromSource, run_refusal_text, source_text};
ghost use Rattle.ispc_refusals.specs.Refusals.{input_view, refusal_view};

use debug_inputs::InputFault;
use debug_texts::write_pieces;
use debug_traits::{AnswerWriter, WriteFault};
use gang_model::{RefusalNumber, SourceRefusal};
use itoa::Buffer;

/// Why a run is refused before its first command.
#[derive(Debug, PartialEq, Eq)]
pub enum Refusal {
    Source(SourceRefusal),
    /// Standard input has no line `%%`, or too many bytes. The program says so, and no run.
    NoScript,
    /// The source has no exported function, or none of the name that is asked for.
    NoEntry,
    Input(InputFault),
    Memory,
}

impl Drop for Refusal {
    fn drop(self) {
        match self {
            Refusal::Source(_)
            | Refusal::NoScript
            | Refusal::NoEntry
            | Refusal::Input(_)
            | Refusal::Memory => {}
        }
    }
}

/// Writes the line that tells a refusal.
///
/// # Errors
///
/// `WriteFault` where the writer fails or takes 0 bytes; a strict front of the text has been written then.
pub fn write_refusal<O: AnswerWriter>(refusal: &Refusal, out: &mut O) -> Result<(), WriteFault>
    requires { O.has_failed out.old ≡ false }
    ensures { Writes (run_refusal_text (refusal_view refusal.now)) (O.written out.old) (O.written out.new) (O.has_failed out.new) result }
{
    match refusal {
        Refusal::Source(refused) => write_source_refusal(*refused, out),
        Refusal::NoScript => out.write_all(b"script: E2 NoScript\n"),
        Refusal::NoEntry => out.write_all(b"entry: E1 NoEntry\n"),
        Refusal::Input(fault) => write_input_refusal(fault, out),
        Refusal::Memory => out.write_all(b"memory\n"),
    }
}

fn write_source_refusal<O: AnswerWriter>(
    refusal: SourceRefusal,
    out: &mut O,
) -> Result<(), WriteFault>
    requires { O.has_failed out.old ≡ false }
    ensures { Writes (run_refusal_text (FromSource refusal)) (O.written out.old) (O.written out.new) (O.has_failed out.new) result }
{
    let mut line = Buffer::new();
    let mut column = Buffer::new();
    let pieces = [
        line.format(refusal.place.line).as_bytes(),
        b":",
        column.format(refusal.place.col).as_bytes(),
        b": ",
        name_of(refusal.number).as_bytes(),
        b"\n",
    ];
    write_pieces(out, &pieces)
}

fn write_input_refusal<O: AnswerWriter>(fault: &InputFault, out: &mut O) -> Result<(), WriteFault>
    requires { O.has_failed out.old ≡ false }
    ensures { Writes (run_refusal_text (input_view fault.now)) (O.written out.old) (O.written out.new) (O.has_failed out.new) result }
{
    match fault {
        InputFault::BadLine(line) => write_at_line(*line, ": I1 BadLine", out),
        InputFault::Missing(name) => write_missing(name, out),
        InputFault::Range(line) => write_at_line(*line, ": I3 Range", out),
        InputFault::TooLarge(line) => write_too_large(*line, out),
        InputFault::Memory => out.write_all(b"memory\n"),
    }
}

/// Writes that a line of the input has too many values, or the whole input too many bytes.
fn write_too_large<O: AnswerWriter>(line: Option<u32>, out: &mut O) -> Result<(), WriteFault>
    requires { O.has_failed out.old ≡ false }
    ensures { Writes (run_refusal_text (FromInput (TooLarge line))) (O.written out.old) (O.written out.new) (O.has_failed out.new) result }
{
    match line {
        Some(line) => write_at_line(line, ": I4 TooLarge", out),
        None => out.write_all(b"input: I4 TooLarge\n"),
    }
}

/// Writes that a line of the input is refused, and why.
fn write_at_line<O: AnswerWriter>(line: u32, reason: &str, out: &mut O) -> Result<(), WriteFault>
    requires { O.has_failed out.old ≡ false }
    ensures { Writes (text.line (codes "input " ++ decimal line ++ reason.now)) (O.written out.old) (O.written out.new) (O.has_failed out.new) result }
{
    let mut number = Buffer::new();
    let pieces = [
        b"input ",
        number.format(line).as_bytes(),
        reason.as_bytes(),
        b"\n",
    ];
    write_pieces(out, &pieces)
}

/// Writes that a parameter of this name has no row.
fn write_missing<O: AnswerWriter>(name: &[u8], out: &mut O) -> Result<(), WriteFault>
    requires { O.has_failed out.old ≡ false }
    ensures { Writes (text.line (codes "input: I2 Missing " ++ name.now)) (O.written out.old) (O.written out.new) (O.has_failed out.new) result }
{
    let pieces = [b"input: I2 Missing ", name, b"\n"];
    write_pieces(out, &pieces)
}

/// A refusal's number and name.
fn name_of(number: RefusalNumber) -> &'static str
    ensures { result.now ≡ source_text number }
{
    match number {
        RefusalNumber::S1 => "S1 BadByte",
        RefusalNumber::S2 => "S2 BadNumber",
        RefusalNumber::S3 => "S3 Unexpected",
        RefusalNumber::S4 => "S4 TooDeep",
        RefusalNumber::S5 => "S5 UnknownName",
        RefusalNumber::S6 => "S6 Duplicate",
        RefusalNumber::S7 => "S7 Rate",
        RefusalNumber::S8 => "S8 Type",
        RefusalNumber::S9 => "S9 NoOverload",
        RefusalNumber::S10 => "S10 Ambiguous",
        RefusalNumber::S11 => "S11 BadControl",
        RefusalNumber::S12 => "S12 NestedCall",
        RefusalNumber::S13 => "S13 Limit",
    }
}
