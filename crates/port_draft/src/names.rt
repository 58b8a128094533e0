//! What names stand for, and names that are new.
use crate::draft::Draft;
use crate::known::{Known, Shape};
use port_tokens::{Kind, Span, Token};
use std::alloc::AllocError;

impl Draft {
    /// What the word there names, among the variables in scope.
    pub fn known(&self, at: usize) -> Option<Known> {
        self.names.find(&self.pool, self.token(at).text)
    }

    /// The name that is written for the word there.
    pub fn written_name(&self, at: usize) -> Token {
        let token = self.token(at);
        match self.known(at) {
            Some(known) => Token {
                text: known.written,
                ..token
            },
            None => token,
        }
    }

    /// Whether the word there names an array of which each lane has a column.
    pub fn is_column(&self, at: usize) -> bool {
        match self.known(at) {
            Some(known) => known.shape == Shape::Column,
            None => false,
        }
    }

    /// How many columns the array of two dimensions has that the word there names, else 0.
    pub fn columns(&self, at: usize) -> i64 {
        match self.known(at) {
            Some(known) => known.columns,
            None => 0,
        }
    }

    /// Finds what stands between the stems and the numbers of fresh names: so many lines below that no name of the source
    /// ends so.
    pub fn find_joint(&mut self) -> Result<(), AllocError> {
        let mut most = 0usize;
        for at in 0..self.tokens.len() {
            if self.is_word(at) {
                most = most.max(lines_before_number(self.text(at)));
            }
        }
        let start = self.pool.len();
        for _ in 0..most.saturating_add(1) {
            self.pool.add(b"_")?;
        }
        self.joint = self.pool.since(start);
        Ok(())
    }

    /// A name that nothing else has, with a blank before it.
    pub fn fresh(&mut self, stem: Span) -> Result<Token, AllocError> {
        self.count = self.count.saturating_add(1);
        let start = self.pool.len();
        self.pool.repeat(stem)?;
        self.pool.repeat(self.joint)?;
        self.pool.add_number(i64::from(self.count))?;
        Ok(Token {
            before: self.blank,
            text: self.pool.since(start),
            at: 0,
            kind: Kind::Word,
        })
    }

    /// Whether the part of `bodies` has this word.
    pub fn body_has(&self, body: Span, word: &[u8]) -> bool {
        for token in self.bodies.part(body) {
            if self.pool.is(token.text, word) {
                return true;
            }
        }
        false
    }

    /// Whether the part of `bodies` has one of these words.
    pub fn body_has_one(&self, body: Span, words: &[&[u8]]) -> bool {
        for word in words {
            if self.body_has(body, word) {
                return true;
            }
        }
        false
    }

    /// The part of `bodies` from there on.
    pub fn bodies_from(&self, start: usize) -> Span {
        Span {
            start,
            end: self.bodies.len(),
        }
    }

    /// Keeps the type of these words.
    pub fn keep_words(&mut self, words: &[&[u8]]) -> Result<Span, AllocError> {
        let start = self.bodies.len();
        for word in words {
            let token = self.made(word, Kind::Word, 0)?;
            self.bodies.push(token)?;
        }
        Ok(self.bodies_from(start))
    }

    /// Keeps the words of a type, without what is said besides.
    pub fn keep_type(&mut self, part: Span) -> Result<Span, AllocError> {
        let start = self.bodies.len();
        for at in part.start..part.end {
            if self.is_besides(at) {
                continue;
            }
            let before = self.blank;
            let token = self.token(at);
            self.bodies.push(Token { before, ..token })?;
        }
        Ok(self.bodies_from(start))
    }
}

/// How many lines below stand before the number that a text ends with, none where it ends with no number.
fn lines_before_number(text: &[u8]) -> usize {
    let (mut lines, mut has_digits) = (0usize, false);
    for byte in text.iter().rev() {
        if lines == 0 && byte.is_ascii_digit() {
            has_digits = true;
            continue;
        }
        if !has_digits || *byte != b'_' {
            break;
        }
        lines = lines.saturating_add(1);
    }
    lines
}
