//! std's writers as the writer of a run.
ghost use Rattle.std.specs.Prelude.{◌≡◌, false};

use debug_traits::{AnswerWriter, WriteFault};
use std::io::Write;

/// Answers to a writer of std.
#[derive(Drop)]
pub struct StreamWriter<O> {
    inner: O,
    has_failed: bool,
}

impl<O: Write> StreamWriter<O> {
    ghost use Rattle.debug_streams.specs.Streams.{target_of, writer_failed};

    /// A writer that has not failed.
    pub fn new(inner: O) -> Self
        ensures works { writer_failed result ≡ false }
        ensures inner { target_of result ≡ inner }
    {
        StreamWriter {
            inner,
            has_failed: false,
        }
    }
}

impl<O: Write> AnswerWriter for StreamWriter<O> {
    ghost written = { λ s. O.contents s.inner };

    ghost has_failed = { λ s. s.has_failed };

    fn write(&mut self, bytes: &[u8]) -> Result<usize, WriteFault> {
        match self.inner.write(bytes) {
            Ok(n) => {
                self.has_failed = n == 0 && !bytes.is_empty();
                Ok(n)
            }
            Err(_) => {
                self.has_failed = true;
                Err(WriteFault)
            }
        }
    }
}
