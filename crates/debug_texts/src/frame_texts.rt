//! Frames, as answers list them.
ghost use Rattle.std.specs.Prelude.{◌≡◌, ◌-◌, false, is_err};
ghost use Rattle.gang_model.specs.Debugger.Debugger.{Debugger, Setting, now};
ghost use Rattle.gang_model.specs.Texts.Text.{frame_lines};
ghost use Rattle.debug_traits.specs.Devices.{Writes};
ghost use Rattle.debug_traits.specs.Machines.{call_text, depth_of};
ghost use Rattle.debug_texts.specs.Wording.{calls_text};

use crate::place_texts::write_place_line;
use debug_traits::{AnswerWriter, Position, RecordedMachine, WriteFault};

/// Writes a line for each frame, the top one first, or `ended`.
pub(crate) fn write_frames<M: RecordedMachine, O: AnswerWriter>(
    machine: &M,
    writer: &mut O,
) -> Result<(), WriteFault>
    requires works { O.has_failed writer.old ≡ false }
    ensures said { (s : Setting) (d : Debugger) → M.stands machine.now s d
        → Writes (frame_lines s.program (now s d).frames) (O.written writer.old) (O.written writer.new) (O.has_failed writer.new) result }
    ensures failed { O.has_failed writer.new ≡ is_err result }
{
    let position = machine.position();
    write_place_line(&[], position, writer)?;
    write_calls(depth(position), machine, writer)
}

/// The depth of a position; a program that has ended counts as depth 1.
fn depth(position: Option<Position<'_>>) -> usize
    ensures { result ≡ depth_of position.entry }
{
    match position {
        Some(position) => position.depth,
        None => 1,
    }
}

/// Writes a line for the call of each frame below the top one, which has this depth.
fn write_calls<M: RecordedMachine, O: AnswerWriter>(
    depth: usize,
    machine: &M,
    writer: &mut O,
) -> Result<(), WriteFault>
    requires works { O.has_failed writer.old ≡ false }
    ensures said { (s : Setting) (d : Debugger) → M.stands machine.now s d
        → Writes (calls_text s.program (now s d).frames (depth - 1)) (O.written writer.old) (O.written writer.new) (O.has_failed writer.new) result }
    ensures failed { O.has_failed writer.new ≡ is_err result }
{
    let mut last = depth;
    while last > 1 {
        last -= 1;
        write_call(last, machine, writer)?;
    }
    Ok(())
}

/// Writes a line: where the call stands that the frame at a depth made, if it made one.
fn write_call<M: RecordedMachine, O: AnswerWriter>(
    depth: usize,
    machine: &M,
    writer: &mut O,
) -> Result<(), WriteFault>
    requires works { O.has_failed writer.old ≡ false }
    ensures said { (s : Setting) (d : Debugger) → M.stands machine.now s d
        → Writes (call_text s.program depth (now s d).frames) (O.written writer.old) (O.written writer.new) (O.has_failed writer.new) result }
    ensures failed { O.has_failed writer.new ≡ is_err result }
{
    match machine.call(depth) {
        None => Ok(()),
        call => write_place_line(&[], call, writer),
    }
}
