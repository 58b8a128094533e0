//! std's readers as the reader of a run.
ghost use Rattle.std.specs.Prelude.{◌≡◌, ◌≤◌, false};

use debug_traits::{AnswerWriter, CommandReader, Journal, ReadFault};
use std::io::Read;

/// Commands from a reader of std.
#[derive(Drop)]
pub struct StreamReader<R> {
    inner: R,
    reads: u32,
    pieces: u32,
    has_failed: bool,
    journal: Journal,
    ghost within: { pieces ≤ reads },
}

impl<R: Read> StreamReader<R> {
    ghost use Rattle.debug_streams.specs.Streams.{reader_failed, reads_of, source_of};

    /// A reader that has read nothing.
    pub fn new(inner: R) -> Self
        ensures fresh { reads_of result ≡ 0 }
        ensures works { reader_failed result ≡ false }
        ensures inner { source_of result ≡ inner }
    {
        StreamReader {
            inner,
            reads: 0,
            pieces: 0,
            has_failed: false,
            journal: Journal::none(),
        }
    }
}

impl<R: Read, O: AnswerWriter> CommandReader<O> for StreamReader<R> {
    ghost left = { λ s. R.remaining s.inner };

    ghost reads = { λ s. s.reads };

    ghost pieces = { λ s. s.pieces };

    ghost has_failed = { λ s. s.has_failed };

    ghost heard = { λ s. s.journal.heard };

    fn read(&mut self, into: &mut [u8], writer: &O) -> Result<usize, ReadFault> {
        self.reads += 1;
        match self.inner.read(into) {
            Ok(n) => {
                self.pieces += u32::from(n > 0);
                self.journal = Journal::and(&self.journal, writer, &into[..n]);
                Ok(n)
            }
            Err(_) => {
                self.has_failed = true;
                self.journal = Journal::and(&self.journal, writer, &[]);
                Err(ReadFault)
            }
        }
    }
}
