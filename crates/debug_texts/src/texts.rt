//! Texts, written whole or up to where the writer fails.
ghost use Rattle.std.specs.Prelude.{◌≡◌, false, map};
ghost use Rattle.std.specs.List.{concat};
ghost use Rattle.debug_traits.specs.Devices.{Writes};

use debug_traits::{AnswerWriter, WriteFault};

/// Writes these pieces in order, or the front of them where the writer fails.
///
/// # Errors
///
/// `WriteFault` where the writer fails or takes 0 bytes.
pub fn write_pieces<O: AnswerWriter>(writer: &mut O, pieces: &[&[u8]]) -> Result<(), WriteFault>
    requires { O.has_failed writer.old ≡ false }
    ensures { Writes (concat (map (λ p. p.now) pieces.now)) (O.written writer.old) (O.written writer.new) (O.has_failed writer.new) result }
{
    for piece in pieces {
        writer.write_all(piece)?;
    }
    Ok(())
}
