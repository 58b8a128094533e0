//! Parts of a text: bytes that stand as they are, numbers in columns, shares, and bytes of a source.
ghost use Rattle.std.specs.Prelude.{◌≡◌, false, is_err};

use debug_traits::{AnswerWriter, WriteFault};
use itoa::Buffer;

const BLANKS: &[u8] = b"                                ";

/// A part of what is written.
#[derive(Clone, Copy, Debug)]
pub(crate) enum Part<'a> {
    /// Written as it is.
    Text(&'a [u8]),
    Number(u64),
    /// A number at the right of a column of so many bytes.
    Right(u64, usize),
    /// A share in thousandths, as percents with one decimal, at the right of a column of seven bytes.
    Share(u64),
    /// A share in thousandths, as percents with one decimal.
    Percents(u64),
    /// Bytes of a source, with its controls replaced.
    Shown(&'a [u8]),
    /// Bytes of a source at the left of a column of so many bytes.
    Left(&'a [u8], usize),
}

/// Writes parts in order.
///
/// # Errors
///
/// `WriteFault` where the writer fails or takes 0 bytes.
pub(crate) fn write_parts<O: AnswerWriter>(
    writer: &mut O,
    parts: &[Part<'_>],
) -> Result<(), WriteFault>
    requires works { O.has_failed writer.old ≡ false }
    ensures failed { O.has_failed writer.new ≡ is_err result }
{
    for part in parts {
        write_part(writer, *part)?;
    }
    Ok(())
}

fn write_part<O: AnswerWriter>(writer: &mut O, part: Part<'_>) -> Result<(), WriteFault>
    requires works { O.has_failed writer.old ≡ false }
    ensures failed { O.has_failed writer.new ≡ is_err result }
{
    match part {
        Part::Text(text) => writer.write_all(text),
        Part::Number(number) => write_right(number, 0, writer),
        Part::Right(number, room) => write_right(number, room, writer),
        Part::Share(share) => {
            write_right(share / 10, 4, writer)?;
            write_tenth(share, writer)?;
            writer.write_all(b"%")
        }
        Part::Percents(share) => {
            write_right(share / 10, 0, writer)?;
            write_tenth(share, writer)
        }
        Part::Shown(bytes) => write_shown(bytes, writer),
        Part::Left(bytes, room) => {
            write_shown(bytes, writer)?;
            write_blanks(room.saturating_sub(bytes.len()), writer)
        }
    }
}

/// Writes the decimal of a share.
fn write_tenth<O: AnswerWriter>(share: u64, writer: &mut O) -> Result<(), WriteFault>
    requires works { O.has_failed writer.old ≡ false }
    ensures failed { O.has_failed writer.new ≡ is_err result }
{
    writer.write_all(b".")?;
    write_right(share % 10, 0, writer)
}

/// Writes a number at the right of so many bytes.
fn write_right<O: AnswerWriter>(number: u64, room: usize, writer: &mut O) -> Result<(), WriteFault>
    requires works { O.has_failed writer.old ≡ false }
    ensures failed { O.has_failed writer.new ≡ is_err result }
{
    let mut digits = Buffer::new();
    let text = digits.format(number).as_bytes();
    write_blanks(room.saturating_sub(text.len()), writer)?;
    writer.write_all(text)
}

/// Writes so many blanks, or 32 where that is less.
fn write_blanks<O: AnswerWriter>(count: usize, writer: &mut O) -> Result<(), WriteFault>
    requires works { O.has_failed writer.old ≡ false }
    ensures failed { O.has_failed writer.new ≡ is_err result }
{
    writer.write_all(BLANKS.get(..count).unwrap_or(BLANKS))
}

/// Writes bytes of a source, `?` for each control but a tab.
fn write_shown<O: AnswerWriter>(bytes: &[u8], writer: &mut O) -> Result<(), WriteFault>
    requires works { O.has_failed writer.old ≡ false }
    ensures failed { O.has_failed writer.new ≡ is_err result }
{
    for byte in bytes {
        let shown = match *byte {
            b'\t' => b'\t',
            0..=31 | 127 => b'?',
            other => other,
        };
        writer.write_all(&[shown])?;
    }
    Ok(())
}
