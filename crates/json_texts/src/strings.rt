//! Strings, in which no `<` stands.
ghost use Rattle.std.specs.Prelude.{◌≡◌, ◌∷◌, [], false, is_err, IfOk, MatchOption};
ghost use Rattle.std.specs.Str.{is_utf8};
ghost use Rattle.std.specs.Io.KnownBytes.{Appends};
ghost use Rattle.json_texts.specs.Json.{byte_text, string_text};

use debug_traits::{AnswerWriter, WriteFault};
use std::str;

/// What stands for a byte that cannot be shown.
const REPLACED: &[u8] = b"\xEF\xBF\xBD";

/// Writes bytes as a string. Where they are not UTF-8, each byte outside ASCII is replaced.
pub(crate) fn write_string<O: AnswerWriter>(bytes: &[u8], writer: &mut O) -> Result<(), WriteFault>
    requires works { O.has_failed writer.old ≡ false }
    ensures written { IfOk result (λ _. Appends (O.written writer.old) (O.written writer.new) (string_text bytes.now)) }
    ensures failed { O.has_failed writer.new ≡ is_err result }
{
    let is_text = is_text(bytes);
    writer.write_all(b"\"")?;
    for byte in bytes {
        write_byte(*byte, is_text, writer)?;
    }
    writer.write_all(b"\"")
}

/// Whether bytes are UTF-8.
fn is_text(bytes: &[u8]) -> bool
    ensures { result ≡ is_utf8 bytes.now }
{
    str::from_utf8(bytes).is_ok()
}

fn write_byte<O: AnswerWriter>(byte: u8, is_text: bool, writer: &mut O) -> Result<(), WriteFault>
    requires works { O.has_failed writer.old ≡ false }
    ensures written { IfOk result (λ _. Appends (O.written writer.old) (O.written writer.new) (byte_text is_text byte)) }
    ensures failed { O.has_failed writer.new ≡ is_err result }
{
    match escape(byte, is_text) {
        Some(text) => writer.write_all(text),
        None => writer.write_all(&[byte]),
    }
}

/// What stands for a byte in a string, unless it stands for itself.
fn escape(byte: u8, is_text: bool) -> Option<&'static [u8]>
    ensures { MatchOption result (byte_text is_text byte ≡ byte ∷ []) (λ text. text.now ≡ byte_text is_text byte) }
{
    match byte {
        b'"' => Some(b"\\\""),
        b'\\' => Some(b"\\\\"),
        b'\n' => Some(b"\\n"),
        b'\t' => Some(b"\\t"),
        b'<' => Some(b"\\u003c"),
        b'>' => Some(b"\\u003e"),
        b'&' => Some(b"\\u0026"),
        0..=31 | 127 => Some(REPLACED),
        128..=255 if !is_text => Some(REPLACED),
        _ => None,
    }
}
