//! A writer that keeps what it takes, which is little at a time, or fails.
ghost use Rattle.std.specs.Prelude.{◌≡◌, Some, [], false};

use arrayvec::ArrayVec;
use debug_traits::{AnswerWriter, WriteFault};

/// Keeps what is written, at most so many bytes a call, and takes none past its room.
#[derive(Drop)]
pub struct PieceWriter {
    bytes: ArrayVec<u8, 512>,
    most: usize,
    room: usize,
    has_failed: bool,
    calls: u32,
}

impl PieceWriter {
    ghost use Rattle.tests_devices.specs.Devices.{bytes_of, calls_of, writer_failed};

    /// A writer that takes at most so many bytes a call, at least one, and so many in all.
    pub fn new(most: usize, room: usize) -> Self
        ensures works { writer_failed result ≡ false }
        ensures empty { bytes_of result ≡ [] }
    {
        PieceWriter {
            bytes: ArrayVec::new(),
            most: most.max(1),
            room,
            has_failed: false,
            calls: 0,
        }
    }

    /// What was written.
    pub fn bytes(&self) -> &[u8]
        ensures { result.now ≡ bytes_of self.now }
    {
        self.bytes.as_slice()
    }

    /// How often something was written to it, or tried.
    pub fn calls(&self) -> u32
        ensures { result ≡ calls_of self.now }
    {
        self.calls
    }
}

impl AnswerWriter for PieceWriter {
    ghost written = { λ s. Some (s.bytes.items) };

    ghost has_failed = { λ s. s.has_failed };

    fn write(&mut self, bytes: &[u8]) -> Result<usize, WriteFault> {
        self.calls = self.calls.saturating_add(1);
        if self.room == 0 && !bytes.is_empty() {
            self.has_failed = true;
            return Err(WriteFault);
        }
        let n = self
            .most
            .min(self.room)
            .min(self.bytes.remaining_capacity())
            .min(bytes.len());
        if self.bytes.try_extend_from_slice(&bytes[..n]).is_err() {
            self.has_failed = true;
            return Err(WriteFault);
        }
        self.room -= n;
        self.has_failed = n == 0 && !bytes.is_empty();
        Ok(n)
    }
}
