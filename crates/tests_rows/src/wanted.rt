//! A writer that takes what is wanted, and fails at anything else.
ghost use Rattle.std.specs.Prelude.{◌≡◌, None, false};

use debug_traits::{AnswerWriter, WriteFault};

/// Takes the bytes of a text in order, and fails where something else is written.
#[derive(Drop)]
pub(crate) struct WantedWriter<'a> {
    rest: &'a [u8],
    has_failed: bool,
}

impl<'a> WantedWriter<'a> {
    /// A writer that wants this text.
    pub(crate) fn new(text: &'a [u8]) -> Self
        ensures { result.has_failed ≡ false }
    {
        WantedWriter {
            rest: text,
            has_failed: false,
        }
    }

    /// What is still wanted.
    pub(crate) fn rest(&self) -> &[u8] {
        self.rest
    }
}

impl AnswerWriter for WantedWriter<'_> {
    ghost written = { λ _. None };

    ghost has_failed = { λ s. s.has_failed };

    fn write(&mut self, bytes: &[u8]) -> Result<usize, WriteFault> {
        match self.rest.strip_prefix(bytes) {
            Some(rest) => {
                self.rest = rest;
                Ok(bytes.len())
            }
            None => {
                self.has_failed = true;
                Err(WriteFault)
            }
        }
    }
}
