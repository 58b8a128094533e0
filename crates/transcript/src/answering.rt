//! The loop that reads command lines in pieces and has each answered.
ghost use Rattle.std.specs.Prelude.{◌≡◌, ◌⊎◌, ◌+◌, ◌≤◌, ℕ, true, false, List, []};
ghost use Rattle.std.specs.Io.KnownBytes.{Appends};
ghost use Rattle.gang_model.specs.Debugger.Debugger.{Debugger, Setting};
ghost use Rattle.gang_model.specs.Texts.Endings.{Ends};
ghost use Rattle.gang_model.specs.Texts.Text.{Bytes};
ghost use Rattle.transcript.specs.Lines.{fails};
ghost use Rattle.transcript.specs.Answered.{AnswersLines, AnswersPiece, held_of, line_alone};
ghost use Rattle.transcript.specs.Gathering.{GathersPiece, gathered, lacks_room};
ghost use Rattle.transcript.specs.Endings.{end_of, ending_of};
ghost use Rattle.transcript.specs.Order.{TakesTurns};

use crate::debugger::{LineDebugger, Turn};
use crate::room::Room;
use arrayvec::ArrayVec;
use debug_traits::{AnswerWriter, CommandReader, READS};

const LINE_FEED: u8 = 10;

/// How many bytes of a line are held. A line of more than 256 bytes spells no command, whatever they are.
const HELD: usize = 257;

/// How the answering of command lines ended.
#[derive(Clone, Copy, Debug, PartialEq, Eq)]
pub enum Ending {
    /// A line spelled `quit`.
    Quit,
    /// The reader had no more bytes.
    EndOfCommands,
    /// A read failed; or each of `READS` reads gave some bytes, and none was the end.
    ReadFault,
    /// The writer failed.
    WriteFault,
}

impl Ending {
    /// The end that the turn of the last line leads to.
    fn after(turn: Turn) -> Ending
        ensures { result ≡ end_of turn }
    {
        match turn {
            Turn::Goes => Ending::EndOfCommands,
            Turn::Quits => Ending::Quit,
            Turn::Fails => Ending::WriteFault,
        }
    }
}

/// Answers the command lines that the reader gives: up to `quit`, to the last line, or to the first fault of the reader or
/// of the writer. The last line may lack its line feed.
pub fn answer_lines<D: LineDebugger, R: CommandReader<O>, O: AnswerWriter>(
    debugger: &mut D,
    reader: &mut R,
    writer: &mut O,
) -> Ending
    requires fresh { R.reads reader.old ≡ 0 }
    requires reader_works { R.has_failed reader.old ≡ false }
    requires writer_works { O.has_failed writer.old ≡ false }
    ensures transcript { (s : Setting) (d : Debugger) → D.stands debugger.old s d → (out : List ℕ)
        × Appends (O.written writer.old) (O.written writer.new) out
        × Ends s d (ending_of result) (R.left reader.old) (R.left reader.new) out }
    ensures read_fault { result ≡ Ending.ReadFault → (R.has_failed reader.new ≡ true)
        ⊎ ((R.reads reader.new ≡ READS) × (R.pieces reader.new ≡ R.pieces reader.old + READS)) }
    ensures write_fault { result ≡ Ending.WriteFault → O.has_failed writer.new ≡ true }
    ensures reads { R.reads reader.new ≤ READS }
    // Before each read all whole lines that had come were answered, and nothing else was written; and there is no read after one
    // of them quits, nor after one that gave nothing.
    ensures order { (s : Setting) (d : Debugger) → D.stands debugger.old s d
        → TakesTurns s d (O.written writer.old) (R.heard reader.old) (R.heard reader.new) }
{
    let mut piece = [0; 512];
    let mut line = ArrayVec::new();
    let mut room = Room::new();
    for _count in 0..READS {
        match reader.read(&mut piece, writer) {
            Err(_) => return Ending::ReadFault,
            Ok(0) => return Ending::after(answer_last_line(debugger, &line, writer)),
            Ok(n) => match answer_piece(debugger, &mut line, &piece[..n], &mut room, writer) {
                Turn::Goes => {}
                turn => return Ending::after(turn),
            },
        }
    }
    Ending::ReadFault
}

/// Answers the lines that end in a piece, and holds the front of the line that has begun.
/// No answer is kept back.
fn answer_piece<D: LineDebugger, O: AnswerWriter>(
    debugger: &mut D,
    line: &mut ArrayVec<u8, HELD>,
    piece: &[u8],
    room: &mut Room,
    writer: &mut O,
) -> Turn
    requires works { O.has_failed writer.old ≡ false }
    requires none { gathered room.old ≡ [] }
    requires room { lacks_room room.old ≡ false }
    ensures answered { (s : Setting) (d : Debugger) (begun : Bytes) → D.stands debugger.old s d → line.old.items ≡ held_of begun
        → AnswersPiece D.stands s d begun piece.now result debugger.new line.new.items (O.written writer.old) (O.written writer.new) }
    ensures failed { O.has_failed writer.new ≡ fails result }
    ensures none { result ≡ Turn.Goes → gathered room.new ≡ [] }
    ensures room { lacks_room room.new ≡ false }
{
    match gather_piece(debugger, line, piece, room, writer) {
        Turn::Fails => Turn::Fails,
        turn => match room.give_out(writer) {
            Ok(()) => turn,
            Err(_) => Turn::Fails,
        },
    }
}

/// Does as `answer_piece`, but the last answers may still be gathered.
fn gather_piece<D: LineDebugger, O: AnswerWriter>(
    debugger: &mut D,
    line: &mut ArrayVec<u8, HELD>,
    piece: &[u8],
    room: &mut Room,
    writer: &mut O,
) -> Turn
    requires works { O.has_failed writer.old ≡ false }
    requires none { gathered room.old ≡ [] }
    requires room { lacks_room room.old ≡ false }
    ensures answered { (s : Setting) (d : Debugger) (begun : Bytes) → D.stands debugger.old s d → line.old.items ≡ held_of begun
        → GathersPiece D.stands s d begun piece.now result debugger.new line.new.items (O.written writer.old) (O.written writer.new) (gathered room.new) }
    ensures failed { O.has_failed writer.new ≡ fails result }
    ensures room { lacks_room room.new ≡ false }
{
    for byte in piece {
        if *byte == LINE_FEED {
            match debugger.gather_answer(line.as_slice(), room, writer) {
                Turn::Goes => line.clear(),
                turn => return turn,
            }
        } else if !line.is_full() {
            line.push(*byte);
        }
    }
    Turn::Goes
}

/// Answers the last line, which lacks its line feed; an empty one has no answer.
fn answer_last_line<D: LineDebugger, O: AnswerWriter>(
    debugger: &mut D,
    line: &ArrayVec<u8, HELD>,
    writer: &mut O,
) -> Turn
    requires works { O.has_failed writer.old ≡ false }
    ensures answered { (s : Setting) (d : Debugger) (begun : Bytes) → D.stands debugger.old s d → line.now.items ≡ held_of begun
        → AnswersLines s d (line_alone begun) result (O.written writer.old) (O.written writer.new) }
    ensures failed { O.has_failed writer.new ≡ fails result }
{
    if line.is_empty() {
        return Turn::Goes;
    }
    debugger.answer_line(line.as_slice(), writer)
}
