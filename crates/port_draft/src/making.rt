//! Tokens that are made.
use crate::draft::Draft;
use port_tokens::{Kind, NONE, Span, Token};
use std::alloc::AllocError;

impl Draft {
    /// A token of a made text, with a blank before it.
    pub fn made(&mut self, text: &[u8], kind: Kind, at: usize) -> Result<Token, AllocError> {
        let text = self.pool.add(text)?;
        Ok(Token {
            before: self.blank,
            text,
            at,
            kind,
        })
    }

    /// A token of a number, with a blank before it.
    pub fn number(&mut self, value: i64, at: usize) -> Result<Token, AllocError> {
        let text = self.pool.add_number(value)?;
        Ok(Token {
            before: self.blank,
            text,
            at,
            kind: Kind::Number,
        })
    }

    /// Writes a token.
    pub fn put(&mut self, token: Token) -> Result<(), AllocError> {
        self.written.push(token)
    }

    /// Writes the token there.
    pub fn copy(&mut self, at: usize) -> Result<(), AllocError> {
        let token = self.token(at);
        self.put(token)
    }

    /// Puts the token there into the line.
    pub fn push(&mut self, at: usize) -> Result<(), AllocError> {
        let token = self.token(at);
        self.line.push(token)
    }

    /// Puts a word or a mark into the line, with a blank before it.
    pub fn push_text(&mut self, text: &[u8]) -> Result<(), AllocError> {
        let token = self.made(text, Kind::Mark, 0)?;
        self.line.push(token)
    }

    /// Puts a mark into the line, with no blank before it.
    pub fn push_close(&mut self, text: &[u8]) -> Result<(), AllocError> {
        let token = self.made(text, Kind::Mark, 0)?;
        self.line.push(Token {
            before: NONE,
            ..token
        })
    }

    /// Puts a word or a mark into the line, behind these blanks.
    pub fn push_behind(&mut self, before: Span, text: &[u8]) -> Result<(), AllocError> {
        let token = self.made(text, Kind::Mark, 0)?;
        self.line.push(Token { before, ..token })
    }

    /// Puts a number into the line, with a blank before it.
    pub fn push_number(&mut self, value: i64) -> Result<(), AllocError> {
        let token = self.number(value, 0)?;
        self.line.push(token)
    }

    /// Puts a part of `bodies` into the line.
    pub fn push_body(&mut self, body: Span) -> Result<(), AllocError> {
        self.line.extend(self.bodies.part(body))
    }

    /// Puts a part of the line behind it once more, the first token behind a blank.
    pub fn push_again(&mut self, part: Span) -> Result<(), AllocError> {
        let start = self.line.len();
        self.line.repeat(part)?;
        self.line.space(start, self.blank);
        Ok(())
    }

    /// The part of the line from there on.
    pub fn line_from(&self, start: usize) -> Span {
        Span {
            start,
            end: self.line.len(),
        }
    }

    /// Puts what is written from there on into the line in its place.
    pub fn take_written(&mut self, start: usize) -> Result<(), AllocError> {
        let part = Span {
            start,
            end: self.written.len(),
        };
        self.line.extend(self.written.part(part))?;
        self.written.truncate(start);
        Ok(())
    }

    /// Writes a part of the line.
    pub fn put_line(&mut self, part: Span) -> Result<(), AllocError> {
        self.written.extend(self.line.part(part))
    }

    /// Encloses the line from there on in parentheses, if it is more than a token.
    pub fn enclose_operand(&mut self, start: usize) -> Result<(), AllocError> {
        if start.saturating_add(1) >= self.line.len() {
            return Ok(());
        }
        let open = self.made(b"(", Kind::Mark, 0)?;
        self.line.space(start, NONE);
        self.line.insert(start, open)?;
        self.push_close(b")")
    }
}
