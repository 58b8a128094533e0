//! A writer that keeps what is written.
ghost use Rattle.std.specs.Prelude.{◌≡◌, [], false, Some};

use debug_traits::{AnswerWriter, WriteFault};
use std::alloc::Global;

/// Takes what is written. It fails where there is no memory.
#[derive(Drop)]
pub(crate) struct TextWriter {
    bytes: Vec<u8>,
    has_failed: bool,
}

impl TextWriter {
    /// A writer to which nothing was written.
    pub(crate) fn new(alloc: Global) -> TextWriter
        ensures none { result.bytes.items ≡ [] }
        ensures works { result.has_failed ≡ false }
    {
        TextWriter {
            bytes: Vec::new(alloc),
            has_failed: false,
        }
    }

    /// What was written.
    pub(crate) fn into_bytes(self) -> Vec<u8>
        ensures { result.items ≡ self.bytes.items }
    {
        let TextWriter {
            bytes,
            has_failed: _,
        } = self;
        bytes
    }
}

impl AnswerWriter for TextWriter {
    ghost written = { λ w. Some (w.bytes.items) };

    ghost has_failed = { λ w. w.has_failed };

    fn write(&mut self, bytes: &[u8]) -> Result<usize, WriteFault> {
        if self.bytes.extend_from_slice(bytes).is_err() {
            self.has_failed = true;
            return Err(WriteFault);
        }
        self.has_failed = false;
        Ok(bytes.len())
    }
}
