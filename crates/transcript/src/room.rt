//! Room in which answers are gathered.
ghost use Rattle.std.specs.Prelude.{◌≡◌, [], false, is_err, take, length, Some};

use arrayvec::ArrayVec;
use debug_traits::{AnswerWriter, WriteFault};

/// How many bytes are gathered at most.
const ROOM: usize = 8192;

/// Gathers answers up to 8,192 bytes, for a writer that is given them at once.
#[derive(Drop)]
pub struct Room {
    bytes: ArrayVec<u8, ROOM>,
    is_over: bool,
}

impl Room {
    ghost use Rattle.transcript.specs.Gathering.{GivesOut, gathered, lacks_room};

    /// Where nothing is gathered.
    pub fn new() -> Self
        ensures none { gathered result ≡ [] }
        ensures works { lacks_room result ≡ false }
    {
        Room {
            bytes: ArrayVec::new(),
            is_over: false,
        }
    }

    /// How many bytes are gathered.
    pub(crate) fn length(&self) -> usize
        ensures { result ≡ length (gathered self.now) }
    {
        self.bytes.len()
    }

    /// Takes back what was gathered behind so many bytes. There is room again.
    pub(crate) fn shorten(&mut self, length: usize)
        ensures front { gathered self.new ≡ take length (gathered self.old) }
        ensures works { lacks_room self.new ≡ false }
    {
        self.bytes.truncate(length);
        self.is_over = false;
    }

    /// Gives a writer what is gathered. Nothing is gathered then.
    ///
    /// # Errors
    ///
    /// `WriteFault` where the writer fails or takes 0 bytes; it has a strict front of what was gathered then.
    pub fn give_out<O: AnswerWriter>(&mut self, writer: &mut O) -> Result<(), WriteFault>
        requires works { O.has_failed writer.old ≡ false }
        ensures given { GivesOut (gathered self.old) (O.written writer.old) (O.written writer.new) result }
        ensures failed { O.has_failed writer.new ≡ is_err result }
        ensures none { gathered self.new ≡ [] }
        ensures same_room { lacks_room self.new ≡ lacks_room self.old }
    {
        let result = writer.write_all(self.bytes.as_slice());
        self.bytes.clear();
        result
    }
}

impl AnswerWriter for Room {
    ghost written = { λ s. Some (s.bytes.items) };

    ghost has_failed = { λ s. s.is_over };

    fn write(&mut self, bytes: &[u8]) -> Result<usize, WriteFault> {
        match self.bytes.try_extend_from_slice(bytes) {
            Ok(()) => {
                self.is_over = false;
                Ok(bytes.len())
            }
            Err(_) => {
                self.is_over = true;
                Err(WriteFault)
            }
        }
    }
}
