//! Parts of a text: bytes that stand as they are, numbers, and bytes of a source.
ghost use Rattle.std.specs.Prelude.{◌≡◌, false, is_err};

use crate::escaping::write_escaped;
use debug_traits::{AnswerWriter, WriteFault};
use itoa::Buffer;

/// A part of what is written.
#[derive(Clone, Copy, Debug)]
pub(crate) enum Part<'a> {
    /// Written as it is.
    Text(&'a [u8]),
    Number(usize),
    /// Any bytes, written so that they are text of XML.
    Any(&'a [u8]),
}

/// Writes parts in order.
///
/// # Errors
///
/// `WriteFault` where the writer fails or takes 0 bytes.
pub(crate) fn write_parts<O: AnswerWriter>(
    writer: &mut O,
    parts: &[Part<'_>],
) -> Result<(), WriteFault>
    requires works { O.has_failed writer.old ≡ false }
    ensures failed { O.has_failed writer.new ≡ is_err result }
{
    for part in parts {
        write_part(writer, *part)?;
    }
    Ok(())
}

fn write_part<O: AnswerWriter>(writer: &mut O, part: Part<'_>) -> Result<(), WriteFault>
    requires works { O.has_failed writer.old ≡ false }
    ensures failed { O.has_failed writer.new ≡ is_err result }
{
    match part {
        Part::Text(text) => writer.write_all(text),
        Part::Number(number) => {
            let mut digits = Buffer::new();
            writer.write_all(digits.format(number).as_bytes())
        }
        Part::Any(bytes) => write_escaped(bytes, writer),
    }
}
