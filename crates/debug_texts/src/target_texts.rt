//! Targets, as answers name them.
ghost use Rattle.std.specs.Prelude.{◌≡◌, ◌++◌, false, map};
ghost use Rattle.std.specs.List.{concat};
ghost use Rattle.gang_model.specs.Texts.Text.{line, target_text};
ghost use Rattle.debug_commands.specs.Views.{target_view};
ghost use Rattle.debug_traits.specs.Devices.{Writes};

use crate::texts::write_pieces;
use debug_commands::Target;
use debug_traits::{AnswerWriter, WriteFault};
use itoa::Buffer;

/// Writes a line: some pieces, and a target.
pub(crate) fn write_target_line<O: AnswerWriter>(
    before: &[&[u8]],
    target: Target<'_>,
    writer: &mut O,
) -> Result<(), WriteFault>
    requires { O.has_failed writer.old ≡ false }
    ensures { Writes (line (concat (map (λ p. p.now) before.now) ++ target_text (target_view target.entry)))
        (O.written writer.old) (O.written writer.new) (O.has_failed writer.new) result }
{
    write_pieces(writer, before)?;
    write_target(target, b"\n", writer)
}

/// Writes a target, and some bytes behind it.
pub(crate) fn write_target<O: AnswerWriter>(
    target: Target<'_>,
    after: &[u8],
    writer: &mut O,
) -> Result<(), WriteFault>
    requires { O.has_failed writer.old ≡ false }
    ensures { Writes (target_text (target_view target.entry) ++ after.now)
        (O.written writer.old) (O.written writer.new) (O.has_failed writer.new) result }
{
    let mut digits = Buffer::new();
    match target.at {
        None => write_pieces(writer, &[target.name, after]),
        Some(index) => {
            let index = digits.format(index).as_bytes();
            write_pieces(writer, &[target.name, b"[", index, b"]", after])
        }
    }
}
