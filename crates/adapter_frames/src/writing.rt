//! Messages that are written.
ghost use Rattle.std.specs.Prelude.{◌≡◌, IfOk, OnOk, string_bytes};
ghost use Rattle.std.specs.Io.KnownBytes.{Appends};
ghost use Rattle.adapter_frames.specs.Frames.{frame, head_of};

use std::alloc::{AllocError, Global};
use std::io::{self, Write};

/// Writes a message as a frame.
///
/// # Errors
///
/// The writer fails, or out of memory.
pub fn write_frame<O: Write>(alloc: Global, writer: &mut O, message: &[u8]) -> io::Result<()>
    ensures { OnOk result (Appends (O.contents writer.old) (O.contents writer.new) (frame message.now)) }
{
    let head = head_text(alloc, message.len())?;
    writer.write_all(head.as_bytes())?;
    writer.write_all(message)?;
    writer.flush()
}

/// The head of a message of so many bytes.
fn head_text(alloc: Global, length: usize) -> Result<String, AllocError>
    ensures { IfOk result (λ head. string_bytes head ≡ head_of length) }
{
    format!(in alloc; "Content-Length: {length}\r\n\r\n")
}
