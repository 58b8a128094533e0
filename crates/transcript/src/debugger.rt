//! What answers command lines.
ghost use Rattle.std.specs.Prelude.{◌≡◌, false, List, ℕ};
ghost use Rattle.gang_model.specs.Debugger.Debugger.{Debugger, Setting};
ghost use Rattle.transcript.specs.Lines.{Says, fails};
ghost use Rattle.transcript.specs.Gathering.{SaysBehind, gathered, lacks_room};

use crate::room::Room;
use debug_traits::AnswerWriter;

/// What a line led to: an answer was written, the line quits, or the writer failed.
#[derive(Clone, Copy, Debug, PartialEq, Eq)]
pub enum Turn {
    Goes,
    Quits,
    Fails,
}

/// Answers one command line after another.
pub trait LineDebugger {
    ghost use Rattle.gang_model.specs.Debugger.Debugger.{Debugger, Setting};

    // Whether it stands where the debugger of the definitions stands.
    ghost stands: { Self → Setting → Debugger → Type 0 };

    /// Answers a line, its line feed not included, on the writer. Nothing is written for a line that quits.
    fn answer_line<O: AnswerWriter>(&mut self, line: &[u8], writer: &mut O) -> Turn
        requires works { O.has_failed writer.old ≡ false }
        ensures said { (s : Setting) (d : Debugger) → stands self.old s d
            → Says stands s d line.now result self.new (O.written writer.old) (O.written writer.new) }
        ensures failed { O.has_failed writer.new ≡ fails result };

    /// Answers a line as `answer_line` does, behind what is gathered: the answer is gathered too, or the writer is given both. It is
    /// given both where a debugger has no other body for this.
    fn gather_answer<O: AnswerWriter>(
        &mut self,
        line: &[u8],
        room: &mut Room,
        writer: &mut O,
    ) -> Turn
        requires works { O.has_failed writer.old ≡ false }
        requires room { lacks_room room.old ≡ false }
        ensures said { (s : Setting) (d : Debugger) → stands self.old s d
            → SaysBehind stands s d line.now result self.new (O.written writer.old) (O.written writer.new) (gathered room.old) (gathered room.new) }
        ensures failed { O.has_failed writer.new ≡ fails result }
        ensures room { lacks_room room.new ≡ false }
    {
        match room.give_out(writer) {
            Ok(()) => self.answer_line(line, writer),
            Err(_) => Turn::Fails,
        }
    }
}
