//! Which brackets belong together.
use crate::draft::Draft;
use port_tokens::{Kind, PortRefusal, Reason, is_one_of};

/// The most brackets that are open at one place.
const MOST_OPEN: usize = 64;

impl Draft {
    /// Finds the partner of each bracket.
    ///
    /// # Errors
    ///
    /// A bracket without one, too many in each other, or out of memory.
    pub fn find_partners(&mut self) -> Result<(), PortRefusal> {
        for at in 0..self.tokens.len() {
            self.partners.add(at)?;
            if self.token(at).kind == Kind::Mark {
                self.read_bracket(at)?;
            }
        }
        match self.partners.close() {
            Some(first) => Err(self.refuse(first, Reason::Bracket)),
            None => Ok(()),
        }
    }

    fn read_bracket(&mut self, at: usize) -> Result<(), PortRefusal> {
        if is_one_of(self.text(at), &[b"(", b"[", b"{"]) {
            if self.partners.count_open() >= MOST_OPEN {
                return Err(self.refuse(at, Reason::TooDeep));
            }
            return Ok(self.partners.open(at)?);
        }
        if !is_one_of(self.text(at), &[b")", b"]", b"}"]) {
            return Ok(());
        }
        let Some(first) = self.partners.close() else {
            return Err(self.refuse(at, Reason::Bracket));
        };
        if !self.fits(first, at) {
            return Err(self.refuse(at, Reason::Bracket));
        }
        self.partners.pair(first, at);
        Ok(())
    }

    fn fits(&self, first: usize, last: usize) -> bool {
        if self.is(first, b"(") {
            return self.is(last, b")");
        }
        if self.is(first, b"[") {
            return self.is(last, b"]");
        }
        self.is(last, b"}")
    }
}
