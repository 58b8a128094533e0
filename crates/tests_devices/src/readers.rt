//! Readers of known bytes, which give few at a time, or fail, or never end.
ghost use Rattle.std.specs.Prelude.{◌≡◌, ◌≤◌, ◌<◌, Some, None, false};

use debug_traits::{AnswerWriter, CommandReader, Journal, ReadFault};

/// Gives some bytes, at most so many at a time, and fails once so many were given.
#[derive(Drop)]
pub struct PieceReader<'a> {
    rest: &'a [u8],
    most: usize,
    until_fault: usize,
    reads: u32,
    pieces: u32,
    has_failed: bool,
    journal: Journal,
    ghost takes_some: { 0 < most },
    ghost within: { pieces ≤ reads },
}

impl<'a> PieceReader<'a> {
    ghost use Rattle.tests_devices.specs.Devices.{reader_failed, reads_of, rest_of};

    /// A reader of these bytes that gives at most so many a call, and at least one.
    pub fn new(bytes: &'a [u8], most: usize, until_fault: usize) -> Self
        ensures fresh { reads_of result ≡ 0 }
        ensures works { reader_failed result ≡ false }
        ensures bytes { rest_of result ≡ bytes.entry.now }
    {
        PieceReader {
            rest: bytes,
            most: most.max(1),
            until_fault,
            reads: 0,
            pieces: 0,
            has_failed: false,
            journal: Journal::none(),
        }
    }
}

impl<O: AnswerWriter> CommandReader<O> for PieceReader<'_> {
    ghost left = { λ s. Some (s.rest.now) };

    ghost reads = { λ s. s.reads };

    ghost pieces = { λ s. s.pieces };

    ghost has_failed = { λ s. s.has_failed };

    ghost heard = { λ s. s.journal.heard };

    fn read(&mut self, into: &mut [u8], writer: &O) -> Result<usize, ReadFault> {
        self.reads += 1;
        if self.until_fault == 0 {
            self.has_failed = true;
            self.journal = Journal::and(&self.journal, writer, &[]);
            return Err(ReadFault);
        }
        let n = self
            .most
            .min(self.until_fault)
            .min(into.len())
            .min(self.rest.len());
        let (front, rest) = self.rest.split_at(n);
        into[..n].copy_from_slice(front);
        self.rest = rest;
        self.until_fault -= n;
        self.pieces += u32::from(n > 0);
        self.journal = Journal::and(&self.journal, writer, &into[..n]);
        Ok(n)
    }
}

/// Gives one blank at a time, for ever.
#[derive(Drop)]
pub struct BlankReader {
    reads: u32,
    pieces: u32,
    journal: Journal,
    ghost within: { pieces ≤ reads },
}

impl BlankReader {
    ghost use Rattle.tests_devices.specs.Devices.{blank_reads};

    /// A reader that was not read yet.
    pub fn new() -> Self
        ensures { blank_reads result ≡ 0 }
    {
        BlankReader {
            reads: 0,
            pieces: 0,
            journal: Journal::none(),
        }
    }

    /// How often it was read.
    pub fn reads(&self) -> u32
        ensures { result ≡ blank_reads self.now }
    {
        self.reads
    }
}

impl<O: AnswerWriter> CommandReader<O> for BlankReader {
    ghost left = { λ _. None };

    ghost reads = { λ s. s.reads };

    ghost pieces = { λ s. s.pieces };

    ghost has_failed = { λ _. false };

    ghost heard = { λ s. s.journal.heard };

    fn read(&mut self, into: &mut [u8], writer: &O) -> Result<usize, ReadFault> {
        self.reads += 1;
        match into.first_mut() {
            None => {
                self.journal = Journal::and(&self.journal, writer, &[]);
                Ok(0)
            }
            Some(first) => {
                *first = b' ';
                self.pieces += 1;
                self.journal = Journal::and(&self.journal, writer, b" ");
                Ok(1)
            }
        }
    }
}
