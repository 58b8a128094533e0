//! Any bytes as text of XML.
ghost use Rattle.std.specs.Prelude.{◌≡◌, false, is_err};

use debug_traits::{AnswerWriter, WriteFault};
use std::str;

/// What stands for a byte that cannot stand in XML.
const REPLACED: &[u8] = b"\xEF\xBF\xBD";

/// What stands for a tab.
const TAB: &[u8] = b"    ";

/// Writes bytes as text of XML. Where they are not UTF-8, or have a character that XML does not allow, each byte outside ASCII
/// is replaced, and so is each control character but a tab.
///
/// # Errors
///
/// `WriteFault` where the writer fails or takes 0 bytes.
pub(crate) fn write_escaped<O: AnswerWriter>(bytes: &[u8], writer: &mut O) -> Result<(), WriteFault>
    requires works { O.has_failed writer.old ≡ false }
    ensures failed { O.has_failed writer.new ≡ is_err result }
{
    let is_text = is_text(bytes);
    for byte in bytes {
        write_byte(*byte, is_text, writer)?;
    }
    Ok(())
}

fn write_byte<O: AnswerWriter>(byte: u8, is_text: bool, writer: &mut O) -> Result<(), WriteFault>
    requires works { O.has_failed writer.old ≡ false }
    ensures failed { O.has_failed writer.new ≡ is_err result }
{
    match escape(byte, is_text) {
        Some(text) => writer.write_all(text),
        None => writer.write_all(&[byte]),
    }
}

/// What stands for a byte, unless it stands for itself.
fn escape(byte: u8, is_text: bool) -> Option<&'static [u8]> {
    match byte {
        b'<' => Some(b"&lt;"),
        b'>' => Some(b"&gt;"),
        b'&' => Some(b"&amp;"),
        b'"' => Some(b"&quot;"),
        b'\t' => Some(TAB),
        0..=31 | 127 => Some(REPLACED),
        128..=255 if !is_text => Some(REPLACED),
        _ => None,
    }
}

/// Whether bytes are UTF-8, without the two characters that are none.
fn is_text(bytes: &[u8]) -> bool {
    str::from_utf8(bytes).is_ok() && !bytes.windows(3).any(|at| is_no_character(at))
}

/// Whether bytes spell one of the two last numbers of the first plane, which stand for no character.
fn is_no_character(bytes: &[u8]) -> bool {
    bytes == b"\xEF\xBF\xBE".as_slice() || bytes == b"\xEF\xBF\xBF".as_slice()
}
