//! A page on a writer.
ghost use Rattle.std.specs.Prelude.{◌≡◌, false};
ghost use Rattle.debug_traits.specs.Devices.{Writes};
ghost use Rattle.refusal_pages.specs.Pages.{page_text};

use crate::page::Page;
use debug_texts::write_pieces;
use debug_traits::{AnswerWriter, WriteFault};

/// Writes a page: its heading, an empty line, and its text.
///
/// # Errors
///
/// `WriteFault` where the writer fails or takes 0 bytes; a strict front of the page has been written then.
pub fn write_page<O: AnswerWriter>(page: &Page, writer: &mut O) -> Result<(), WriteFault>
    requires { O.has_failed writer.old ≡ false }
    ensures { Writes (page_text page.now) (O.written writer.old) (O.written writer.new) (O.has_failed writer.new) result }
{
    let pieces = [page.number, b" ".as_slice(), page.name, b"\n\n", page.text];
    write_pieces(writer, &pieces)
}
