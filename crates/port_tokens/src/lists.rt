//! Lists of tokens.
use crate::tokens::{NOTHING, Span, Token};
use std::alloc::{AllocError, Global};

/// Tokens in their order.
pub struct Tokens {
    tokens: Vec<Token>,
}

impl Drop for Tokens {
    fn drop(self) {
        match self {
            Tokens { tokens: _ } => {}
        }
    }
}

impl Tokens {
    /// No tokens.
    pub fn new(alloc: Global) -> Self {
        Tokens {
            tokens: Vec::new(alloc),
        }
    }

    /// How many there are.
    pub fn len(&self) -> usize {
        self.tokens.len()
    }

    /// Whether there are none.
    pub fn is_empty(&self) -> bool {
        self.tokens.is_empty()
    }

    /// The token there, or none behind the last.
    pub fn token(&self, at: usize) -> Token {
        match self.tokens.get(at) {
            Some(token) => *token,
            None => NOTHING,
        }
    }

    /// The last token, or none.
    pub fn last(&self) -> Token {
        self.token(self.tokens.len().saturating_sub(1))
    }

    /// A part of them, or none where it does not lie in them.
    pub fn part(&self, part: Span) -> &[Token] {
        match self.tokens.as_slice().get(part.start..part.end) {
            Some(tokens) => tokens,
            None => &[],
        }
    }

    /// Puts a token behind them.
    pub fn push(&mut self, token: Token) -> Result<(), AllocError> {
        Ok(self.tokens.push(token)?)
    }

    /// Puts tokens behind them.
    pub fn extend(&mut self, tokens: &[Token]) -> Result<(), AllocError> {
        self.tokens.extend_from_slice(tokens)
    }

    /// Puts tokens behind them, the first behind these blanks.
    pub fn append(&mut self, before: Span, tokens: &[Token]) -> Result<(), AllocError> {
        let start = self.tokens.len();
        self.tokens.extend_from_slice(tokens)?;
        self.space(start, before);
        Ok(())
    }

    /// Puts a part of them behind the last once more.
    pub fn repeat(&mut self, part: Span) -> Result<(), AllocError> {
        for at in part.start..part.end {
            let token = self.token(at);
            self.push(token)?;
        }
        Ok(())
    }

    /// Puts other blanks before the token there, if there is one.
    pub fn space(&mut self, at: usize, before: Span) {
        let token = self.token(at);
        self.replace(at, Token { before, ..token });
    }

    /// Puts a token in the place of the one there, if there is one.
    pub fn replace(&mut self, at: usize, token: Token) {
        if let Some(found) = self.tokens.get_mut(at) {
            *found = token;
        }
    }

    /// Puts a token before the one there.
    pub fn insert(&mut self, at: usize, token: Token) -> Result<(), AllocError> {
        let mut carried = token;
        for next in at..self.tokens.len() {
            let found = self.token(next);
            self.replace(next, carried);
            carried = found;
        }
        self.push(carried)
    }

    /// Leaves so many of them, and no more.
    pub fn truncate(&mut self, length: usize) {
        self.tokens.truncate(length);
    }
}
