//! Parts of a text: bytes that stand as they are, numbers, and strings.
ghost use Rattle.std.specs.Prelude.{◌≡◌, false, is_err, flat_map, IfOk};
ghost use Rattle.std.specs.Io.KnownBytes.{Appends};
ghost use Rattle.json_texts.specs.Json.{is_exact, part_text, whole_text};

use crate::strings::write_string;
use debug_traits::{AnswerWriter, WriteFault};
use itoa::Buffer;

/// The greatest whole number up to which all are numbers of JavaScript.
const MOST_EXACT: i128 = 9_007_199_254_740_991;

/// A part of what is written.
#[derive(Clone, Copy, Debug)]
pub enum Part<'a> {
    /// Written as it is.
    Text(&'a [u8]),
    Number(usize),
    /// A whole number, as a string where JavaScript's numbers do not have it.
    Whole(i128),
    /// Any bytes, written as a string.
    Any(&'a [u8]),
}

/// Writes parts in order, and nothing else.
///
/// # Errors
///
/// `WriteFault` where the writer fails or takes 0 bytes.
pub fn write_parts<O: AnswerWriter>(writer: &mut O, parts: &[Part<'_>]) -> Result<(), WriteFault>
    requires works { O.has_failed writer.old ≡ false }
    ensures written { IfOk result (λ _. Appends (O.written writer.old) (O.written writer.new) (flat_map part_text parts.now)) }
    ensures failed { O.has_failed writer.new ≡ is_err result }
{
    for part in parts {
        write_part(writer, *part)?;
    }
    Ok(())
}

/// Writes a part.
///
/// # Errors
///
/// `WriteFault` where the writer fails or takes 0 bytes.
pub fn write_part<O: AnswerWriter>(writer: &mut O, part: Part<'_>) -> Result<(), WriteFault>
    requires works { O.has_failed writer.old ≡ false }
    ensures written { IfOk result (λ _. Appends (O.written writer.old) (O.written writer.new) (part_text part.entry)) }
    ensures failed { O.has_failed writer.new ≡ is_err result }
{
    match part {
        Part::Text(text) => writer.write_all(text),
        Part::Number(number) => {
            let mut digits = Buffer::new();
            writer.write_all(digits.format(number).as_bytes())
        }
        Part::Whole(number) => write_whole(number, writer),
        Part::Any(bytes) => write_string(bytes, writer),
    }
}

fn write_whole<O: AnswerWriter>(number: i128, writer: &mut O) -> Result<(), WriteFault>
    requires works { O.has_failed writer.old ≡ false }
    ensures written { IfOk result (λ _. Appends (O.written writer.old) (O.written writer.new) (whole_text number)) }
    ensures failed { O.has_failed writer.new ≡ is_err result }
{
    let mut digits = Buffer::new();
    let text = digits.format(number).as_bytes();
    if is_exact(number) {
        return writer.write_all(text);
    }
    writer.write_all(b"\"")?;
    writer.write_all(text)?;
    writer.write_all(b"\"")
}

/// Whether JavaScript's numbers have a whole number, and tell it from those beside it.
fn is_exact(number: i128) -> bool
    ensures { result ≡ is_exact number }
{
    -MOST_EXACT <= number && number <= MOST_EXACT
}
