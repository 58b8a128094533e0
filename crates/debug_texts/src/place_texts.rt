//! Where frames stand, as answers tell it.
ghost use Rattle.std.specs.Prelude.{◌≡◌, [], ◌∷◌, ◌++◌, false, IfSome, map};
ghost use Rattle.std.specs.List.{concat};
ghost use Rattle.gang_types.specs.Masks.{IsGangWidth, lanes_of};
ghost use Rattle.gang_model.specs.Texts.Text.{bits, line};
ghost use Rattle.debug_traits.specs.Devices.{Writes};
ghost use Rattle.debug_traits.specs.Machines.{position_text};
ghost use Rattle.debug_texts.specs.Wording.{place_front};

use crate::texts::write_pieces;
use debug_traits::{AnswerWriter, Position, WriteFault};
use gang_types::Mask;
use itoa::Buffer;

/// The widest gang.
const WIDEST: usize = 16;

/// Writes a line: some pieces, and where the program stands.
pub(crate) fn write_place_line<O: AnswerWriter>(
    why: &[&[u8]],
    position: Option<Position<'_>>,
    writer: &mut O,
) -> Result<(), WriteFault>
    requires width { IfSome position (λ p. IsGangWidth p.width) }
    requires works { O.has_failed writer.old ≡ false }
    ensures { Writes (line (concat (map (λ p. p.now) why.now) ++ position_text position.entry))
        (O.written writer.old) (O.written writer.new) (O.has_failed writer.new) result }
{
    write_pieces(writer, why)?;
    write_position(position, writer)?;
    writer.write_all(b"\n")
}

/// Writes where the program stands.
fn write_position<O: AnswerWriter>(
    position: Option<Position<'_>>,
    writer: &mut O,
) -> Result<(), WriteFault>
    requires width { IfSome position (λ p. IsGangWidth p.width) }
    requires works { O.has_failed writer.old ≡ false }
    ensures { Writes (position_text position.entry) (O.written writer.old) (O.written writer.new) (O.has_failed writer.new) result }
{
    match position {
        None => writer.write_all(b"ended"),
        Some(position) => {
            write_front(&position, writer)?;
            write_lanes(position.width, position.lanes, writer)
        }
    }
}

/// Writes all of a position but its lanes.
fn write_front<O: AnswerWriter>(position: &Position<'_>, writer: &mut O) -> Result<(), WriteFault>
    requires { O.has_failed writer.old ≡ false }
    ensures { Writes (place_front position.now) (O.written writer.old) (O.written writer.new) (O.has_failed writer.new) result }
{
    let mut line = Buffer::new();
    let mut column = Buffer::new();
    let mut depth = Buffer::new();
    let pieces = [
        b"at ".as_slice(),
        line.format(position.place.line).as_bytes(),
        b":",
        column.format(position.place.col).as_bytes(),
        b" ",
        position.function,
        b" depth ",
        depth.format(position.depth).as_bytes(),
        b" lanes ",
    ];
    write_pieces(writer, &pieces)
}

/// Writes a digit for each lane of the gang, lane 0 first: 1 where it is in the set.
fn write_lanes<O: AnswerWriter>(width: usize, lanes: Mask, writer: &mut O) -> Result<(), WriteFault>
    requires width { IsGangWidth width }
    requires works { O.has_failed writer.old ≡ false }
    ensures { Writes (bits (lanes_of width lanes)) (O.written writer.old) (O.written writer.new) (O.has_failed writer.new) result }
{
    for lane in 0..width {
        writer.write_all(lane_digit(lanes.has::<WIDEST>(lane)))?;
    }
    Ok(())
}

/// The digit of a lane.
fn lane_digit(is_active: bool) -> &'static [u8]
    ensures { result.now ≡ bits (is_active ∷ []) }
{
    if is_active { b"1" } else { b"0" }
}
