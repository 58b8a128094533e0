//! A session answers command lines, and its answers are written.
ghost use Rattle.std.specs.Prelude.{◌≡◌, false, is_err};
ghost use Rattle.gang_model.specs.Debugger.Debugger as model;
ghost use Rattle.gang_model.specs.Debugger.Debugger.{Debugger, Setting};
ghost use Rattle.gang_model.specs.Texts.Text.{text};
ghost use Rattle.debug_traits.specs.Devices.{Writes};
ghost use Rattle.debug_answers.specs.Meanings.{Means};
ghost use Rattle.debug_session.specs.Sessions.{StandsFor};
ghost use Rattle.transcript.specs.Lines.{Tells, fails};
ghost use Rattle.transcript.specs.Gathering.{AddsOrFails, gathered, lacks_room};

use crate::debugger::{LineDebugger, Turn};
use crate::room::Room;
use debug_answers::{Answer, Refusal};
use debug_commands::{Command, read_command};
use debug_session::Session;
use debug_traits::{AnswerWriter, PokesSurely, RecordedMachine, WriteFault};

impl<M: PokesSurely> LineDebugger for Session<M> {
    ghost use Rattle.debug_session.specs.Sessions.{StandsFor};

    ghost stands = { λ session s d. StandsFor M.stands session s d };

    fn answer_line<O: AnswerWriter>(&mut self, line: &[u8], writer: &mut O) -> Turn {
        match read_command(line) {
            Some(Command::Quit) => Turn::Quits,
            Some(command) => {
                let answer = self.do_command(command);
                tell(&answer, self, writer)
            }
            None => tell(&Answer::Refused(Refusal::BadCommand), self, writer),
        }
    }

    fn gather_answer<O: AnswerWriter>(
        &mut self,
        line: &[u8],
        room: &mut Room,
        writer: &mut O,
    ) -> Turn {
        match read_command(line) {
            Some(Command::Quit) => Turn::Quits,
            Some(command) => {
                let answer = self.do_command(command);
                gather(&answer, self, room, writer)
            }
            None => gather(&Answer::Refused(Refusal::BadCommand), self, room, writer),
        }
    }
}

/// Writes the text of an answer that a session gave, before its next command.
///
/// # Errors
///
/// `WriteFault` where the writer fails or takes 0 bytes; a strict front of the text has been written then.
pub fn write_answer<M: RecordedMachine, O: AnswerWriter>(
    answer: &Answer<'_>,
    session: &Session<M>,
    writer: &mut O,
) -> Result<(), WriteFault>
    requires works { O.has_failed writer.old ≡ false }
    ensures said { (s : Setting) (d : Debugger) (meant : model.Answer) → StandsFor M.stands session.now s d → Means s d answer.now meant
        → Writes (text s meant d) (O.written writer.old) (O.written writer.new) (O.has_failed writer.new) result }
    ensures failed { O.has_failed writer.new ≡ is_err result }
{
    debug_texts::write_answer(answer, session.machine(), session.stops(), writer)
}

/// Writes an answer of a session, and says what the line led to.
fn tell<M: RecordedMachine, O: AnswerWriter>(
    answer: &Answer<'_>,
    session: &Session<M>,
    writer: &mut O,
) -> Turn
    requires works { O.has_failed writer.old ≡ false }
    ensures said { (s : Setting) (d : Debugger) (meant : model.Answer) → StandsFor M.stands session.now s d → Means s d answer.now meant
        → Tells (text s meant d) (O.written writer.old) (O.written writer.new) result }
    ensures failed { O.has_failed writer.new ≡ fails result }
{
    match write_answer(answer, session, writer) {
        Ok(()) => Turn::Goes,
        Err(_) => Turn::Fails,
    }
}

/// Gathers an answer of a session, or writes it behind what is gathered where it finds no room. Says what the line led to.
fn gather<M: RecordedMachine, O: AnswerWriter>(
    answer: &Answer<'_>,
    session: &Session<M>,
    room: &mut Room,
    writer: &mut O,
) -> Turn
    requires works { O.has_failed writer.old ≡ false }
    requires room { lacks_room room.old ≡ false }
    ensures said { (s : Setting) (d : Debugger) (meant : model.Answer) → StandsFor M.stands session.now s d → Means s d answer.now meant
        → AddsOrFails (text s meant d) (O.written writer.old) (O.written writer.new) (gathered room.old) (gathered room.new) result }
    ensures failed { O.has_failed writer.new ≡ fails result }
    ensures room { lacks_room room.new ≡ false }
{
    let length = room.length();
    if write_answer(answer, session, room).is_ok() {
        return Turn::Goes;
    }
    room.shorten(length);
    match room.give_out(writer) {
        Ok(()) => tell(answer, session, writer),
        Err(_) => Turn::Fails,
    }
}
