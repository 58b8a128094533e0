//! Where commands come from, and where answers go.
ghost use Rattle.std.specs.Prelude.{◌≡◌, ℕ, ◌+◌, ◌++◌, ◌<◌, ◌≤◌, Bool, true, false, List, Option, length, MatchResult, IfOk};
ghost use Rattle.std.specs.Io.KnownBytes.{ReadConsumes, WriteAppends};
ghost use Rattle.debug_traits.specs.Devices.{Heard, Writes, heard_in, pieces_in, tells_of_write};

use thiserror::Error;

/// The most reads of one run.
pub const READS: u32 = 16_777_216;

/// A reader failed, or had been read too often.
#[derive(Clone, Copy, Debug, PartialEq, Eq, Error)]
#[error("a read failed")]
pub struct ReadFault;

/// A writer failed, or took nothing.
#[derive(Clone, Copy, Debug, PartialEq, Eq, Error)]
#[error("a write failed")]
pub struct WriteFault;

/// Gives the bytes of the commands, in pieces, to one who answers them on a writer of this type. A read of none, into a slice that is
/// not empty, is their end.
pub trait CommandReader<O: AnswerWriter> {
    // The bytes that are still to be read, where they are known.
    ghost left: { Self → Option (List ℕ) };

    // How often was read so far.
    ghost reads: { Self → ℕ };

    // How many reads so far gave at least one byte.
    ghost pieces: { Self → ℕ };

    // Whether a read failed. Then no other follows.
    ghost has_failed: { Self → Bool };

    // What was heard in each read so far.
    ghost heard: { Self → List Heard };

    /// Reads, after what the writer was given by now.
    fn read(&mut self, into: &mut [u8], writer: &O) -> Result<usize, ReadFault>
        requires works { has_failed self.old ≡ false }
        requires few { reads self.old < READS }
        ensures bound { IfOk result (λ n. n ≤ length into.new) }
        ensures bytes { ReadConsumes (left self.old) (left self.new) result into.new }
        ensures count { reads self.new ≡ reads self.old + 1 }
        ensures piece { pieces self.new ≡ pieces self.old + pieces_in result }
        ensures failed { MatchResult result (λ _. has_failed self.new ≡ false) (λ _. has_failed self.new ≡ true) }
        ensures heard { heard self.new ≡ heard self.old ++ heard_in (O.written writer.now) result into.new };
}

/// Takes the bytes of the answers, as many at a time as it likes.
pub trait AnswerWriter {
    // The bytes that were written, where they are known.
    ghost written: { Self → Option (List ℕ) };

    // Whether a write failed, or took none of one or more bytes. Then no other follows.
    ghost has_failed: { Self → Bool };

    fn write(&mut self, bytes: &[u8]) -> Result<usize, WriteFault>
        requires works { has_failed self.old ≡ false }
        ensures bound { IfOk result (λ n. n ≤ length bytes.now) }
        ensures taken { WriteAppends (written self.old) (written self.new) result bytes.now }
        ensures failed { has_failed self.new ≡ tells_of_write result bytes.now };

    /// Writes these bytes and no others, or the front of them where the writer fails.
    final fn write_all(&mut self, bytes: &[u8]) -> Result<(), WriteFault>
        requires { has_failed self.old ≡ false }
        ensures { Writes bytes.now (written self.old) (written self.new) (has_failed self.new) result }
    {
        let mut rest = bytes;
        while !rest.is_empty() {
            match self.write(rest)? {
                0 => return Err(WriteFault),
                n => rest = &rest[n..],
            }
        }
        Ok(())
    }
}
