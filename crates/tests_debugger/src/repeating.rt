//! A debugger that repeats its lines.
ghost use Rattle.std.specs.Prelude.{◌≡◌, false};
ghost use Rattle.transcript.specs.Lines.{fails};

use debug_traits::AnswerWriter;
use transcript::{LineDebugger, Turn};

/// Answers each line by the line itself and a `;`, and counts the lines. It stands for no debugger of the definitions.
#[derive(Drop)]
pub struct RepeatingDebugger {
    lines: u32,
}

impl RepeatingDebugger {
    pub fn new() -> Self {
        RepeatingDebugger { lines: 0 }
    }

    pub fn lines(&self) -> u32 {
        self.lines
    }
}

impl LineDebugger for RepeatingDebugger {
    ghost stands = { λ _ _ _. ⊥ };

    fn answer_line<O: AnswerWriter>(&mut self, line: &[u8], writer: &mut O) -> Turn {
        self.lines = self.lines.saturating_add(1);
        if line == b"quit".as_slice() {
            return Turn::Quits;
        }
        match write_bytes(line, writer) {
            Turn::Goes => write_bytes(b";", writer),
            turn => turn,
        }
    }
}

/// Writes each byte, up to the first that is not taken.
fn write_bytes<O: AnswerWriter>(bytes: &[u8], writer: &mut O) -> Turn
    requires works { O.has_failed writer.old ≡ false }
    ensures failed { O.has_failed writer.new ≡ fails result }
{
    for byte in bytes {
        match writer.write(&[*byte]) {
            Ok(0) | Err(_) => return Turn::Fails,
            Ok(_) => {}
        }
    }
    Turn::Goes
}
