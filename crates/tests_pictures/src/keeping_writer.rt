//! A writer that keeps all that is written.
use debug_traits::{AnswerWriter, WriteFault};
use std::alloc::Global;

/// Keeps what is written, and fails where memory does.
#[derive(Drop)]
pub struct KeepingWriter {
    bytes: Vec<u8>,
    has_failed: bool,
}

impl KeepingWriter {
    ghost use Rattle.std.specs.Prelude.{◌≡◌, false};

    /// A writer to which nothing was written.
    pub fn new(alloc: Global) -> Self
        ensures { ⟦<KeepingWriter as AnswerWriter>⟧.has_failed result ≡ false }
    {
        KeepingWriter {
            bytes: Vec::new(alloc),
            has_failed: false,
        }
    }

    /// Whether this stands in what was written.
    pub fn has(&self, part: &[u8]) -> bool {
        part.is_empty() || self.bytes.windows(part.len()).any(|at| at == part)
    }

    /// Whether what was written ends so.
    pub fn ends_with(&self, part: &[u8]) -> bool {
        self.bytes.as_slice().ends_with(part)
    }
}

impl AnswerWriter for KeepingWriter {
    ghost use Rattle.std.specs.Prelude.{Some};

    ghost written = { λ s. Some (s.bytes.items) };

    ghost has_failed = { λ s. s.has_failed };

    fn write(&mut self, bytes: &[u8]) -> Result<usize, WriteFault> {
        match self.bytes.extend_from_slice(bytes) {
            Ok(()) => Ok(bytes.len()),
            Err(_) => {
                self.has_failed = true;
                Err(WriteFault)
            }
        }
    }
}
