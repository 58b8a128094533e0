//! The texts of tokens.
use crate::reading::byte;
use crate::tokens::Span;
use std::alloc::{AllocError, Global};

/// The source, and the texts that were made.
pub struct Pool {
    alloc: Global,
    bytes: Vec<u8>,
}

impl Drop for Pool {
    fn drop(self) {
        match self {
            Pool { alloc: _, bytes: _ } => {}
        }
    }
}

impl Pool {
    /// A pool of a source alone.
    pub fn new(alloc: Global, source: &[u8]) -> Result<Self, AllocError> {
        Ok(Pool {
            alloc,
            bytes: Vec::from_slice(alloc, source)?,
        })
    }

    /// All of its bytes.
    pub fn bytes(&self) -> &[u8] {
        self.bytes.as_slice()
    }

    /// The byte there, or 0 behind the end.
    pub fn byte(&self, at: usize) -> u8 {
        byte(self.bytes.as_slice(), at)
    }

    /// How many bytes it has.
    pub fn len(&self) -> usize {
        self.bytes.len()
    }

    /// The bytes of a part, or none where it does not lie in the pool.
    pub fn text(&self, span: Span) -> &[u8] {
        match self.bytes.as_slice().get(span.start..span.end) {
            Some(text) => text,
            None => &[],
        }
    }

    /// The part from there on.
    pub fn since(&self, start: usize) -> Span {
        Span {
            start,
            end: self.bytes.len(),
        }
    }

    /// Keeps a text.
    pub fn add(&mut self, text: &[u8]) -> Result<Span, AllocError> {
        let start = self.bytes.len();
        self.bytes.extend_from_slice(text)?;
        Ok(self.since(start))
    }

    /// Keeps a part of it once more.
    pub fn repeat(&mut self, part: Span) -> Result<(), AllocError> {
        for at in part.start..part.end {
            let byte = byte(self.bytes.as_slice(), at);
            self.bytes.push(byte)?;
        }
        Ok(())
    }

    /// Keeps the decimal digits of a number, with a minus where it is below 0.
    pub fn add_number(&mut self, value: i64) -> Result<Span, AllocError> {
        let digits = format!(in self.alloc; "{value}")?;
        self.add(digits.as_str().as_bytes())
    }

    /// Whether a part has a text.
    pub fn is(&self, span: Span, text: &[u8]) -> bool {
        self.text(span) == text
    }

    /// Whether two parts have the same text.
    pub fn are_same(&self, left: Span, right: Span) -> bool {
        self.text(left) == self.text(right)
    }
}
