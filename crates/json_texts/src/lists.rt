//! Lists.
ghost use Rattle.std.specs.Prelude.{◌≡◌, false, is_err, IfOk};
ghost use Rattle.std.specs.Io.KnownBytes.{Appends};
ghost use Rattle.json_texts.specs.Json.{comma_before};

use debug_traits::{AnswerWriter, WriteFault};

/// Writes what stands before an item of a list: a comma, and nothing before the first one.
///
/// # Errors
///
/// `WriteFault` where the writer fails or takes 0 bytes.
pub fn write_comma<O: AnswerWriter>(index: usize, writer: &mut O) -> Result<(), WriteFault>
    requires works { O.has_failed writer.old ≡ false }
    ensures written { IfOk result (λ _. Appends (O.written writer.old) (O.written writer.new) (comma_before index)) }
    ensures failed { O.has_failed writer.new ≡ is_err result }
{
    writer.write_all(if index == 0 { b"" } else { b"," })
}
