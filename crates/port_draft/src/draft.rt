//! A text that is ported: what is read of it, what is known at a place, and what is written so far.
ghost use Rattle.std.specs.Prelude.{◌<◌, ◌≤◌, ⊤, MatchOption};

use crate::functions::Functions;
use crate::known::{Meanings, Names};
use port_tokens::{
    Kind, NONE, Partners, Pool, PortRefusal, Reason, Span, Token, Tokens, read_tokens, refusal_at,
};
use std::alloc::{AllocError, Global};

/// How many calls of one another statements or expressions make at most.
pub const DEPTH: u32 = 400;

/// Everything that is known while a text is ported.
pub struct Draft {
    pub alloc: Global,
    pub pool: Pool,
    /// The tokens of the source, and then those without its macros and foreign types.
    pub tokens: Tokens,
    pub partners: Partners,
    /// The macros' and types' names, with the part of `bodies` that each stands for.
    pub macros: Meanings,
    /// Tokens that are used again: macros' bodies, and the types of variables and functions.
    pub bodies: Tokens,
    pub functions: Functions,
    pub names: Names,
    /// What is written so far, and how many statements of the innermost body are.
    pub written: Tokens,
    pub statements: usize,
    /// What is made of the statements that are read, until it is written: what is made last stands last.
    pub line: Tokens,
    /// The statements before and behind the one that is read, as far as its expressions were read.
    pub before: Tokens,
    pub behind: Tokens,
    /// The arrays that stand before the function, and what fills those of the file.
    pub arrays: Tokens,
    pub fillings: Tokens,
    /// The name of the function that fills those, if there are some.
    pub filling: Option<Span>,
    /// The blanks before a statement of its own line.
    pub indent: Span,
    /// The last of them that began a line.
    pub outer: Span,
    pub blank: Span,
    /// The part of the tokens in which what changes may be named once.
    pub region: Span,
    /// Whether what changes may change behind the statement.
    pub is_late: bool,
    /// Whether the function that is read may call itself.
    pub is_recursive: bool,
    /// What stands between the stem and the number of a fresh name, and the last number.
    pub joint: Span,
    pub count: u32,
}

impl Drop for Draft {
    fn drop(self) {
        match self {
            Draft {
                alloc: _,
                pool: _,
                tokens: _,
                partners: _,
                macros: _,
                bodies: _,
                functions: _,
                names: _,
                written: _,
                statements: _,
                line: _,
                before: _,
                behind: _,
                arrays: _,
                fillings: _,
                filling: _,
                indent: _,
                outer: _,
                blank: _,
                region: _,
                is_late: _,
                is_recursive: _,
                joint: _,
                count: _,
            } => {}
        }
    }
}

impl Draft {
    /// The draft of a source of which nothing is read.
    pub fn new(alloc: Global, source: &[u8]) -> Result<Self, AllocError> {
        let pool = Pool::new(alloc, source)?;
        Ok(Draft {
            alloc,
            pool,
            tokens: Tokens::new(alloc),
            partners: Partners::new(alloc),
            macros: Meanings::new(alloc),
            bodies: Tokens::new(alloc),
            functions: Functions::new(alloc),
            names: Names::new(alloc),
            written: Tokens::new(alloc),
            statements: 0,
            line: Tokens::new(alloc),
            before: Tokens::new(alloc),
            behind: Tokens::new(alloc),
            arrays: Tokens::new(alloc),
            fillings: Tokens::new(alloc),
            filling: None,
            indent: NONE,
            outer: NONE,
            blank: NONE,
            region: NONE,
            is_late: false,
            is_recursive: false,
            joint: NONE,
            count: 0,
        })
    }

    /// Reads the tokens of the source.
    ///
    /// # Errors
    ///
    /// A piece that is no token, or out of memory.
    pub fn read(&mut self) -> Result<(), PortRefusal> {
        let whole = self.pool.since(0);
        read_tokens(self.pool.bytes(), whole, &mut self.tokens)?;
        self.blank = self.pool.add(b" ")?;
        self.indent = self.blank;
        self.outer = self.blank;
        Ok(())
    }

    /// The token there, or none behind the last.
    pub fn token(&self, at: usize) -> Token {
        self.tokens.token(at)
    }

    /// The text of the token there.
    pub fn text(&self, at: usize) -> &[u8] {
        self.pool.text(self.tokens.token(at).text)
    }

    /// Whether the token there has this text.
    pub fn is(&self, at: usize, text: &[u8]) -> bool {
        self.pool.is(self.tokens.token(at).text, text)
    }

    /// Whether a word stands there.
    pub fn is_word(&self, at: usize) -> bool {
        self.tokens.token(at).kind == Kind::Word
    }

    /// Whether a word stands there, and parentheses behind it.
    pub fn is_call(&self, at: usize) -> bool {
        self.is_word(at) && self.is(at.saturating_add(1), b"(")
    }

    /// Where the partner of the bracket stands that is there.
    pub fn partner(&self, at: usize) -> usize {
        self.partners.partner(at)
    }

    /// A refusal at the token there, or at the last, if none stands there.
    pub fn refuse(&self, at: usize, reason: Reason) -> PortRefusal {
        let token = if at < self.tokens.len() {
            self.tokens.token(at)
        } else {
            self.tokens.last()
        };
        refusal_at(token.at, reason)
    }

    /// The first of one text between brackets that are closed.
    pub fn find_one(&self, part: Span, text: &[u8]) -> Option<usize>
        ensures { MatchOption result ⊤ (λ at. at < part.end) }
    {
        let mut next = part.start;
        for at in part.start..part.end {
            if at < next {
                continue;
            }
            if self.is(at, text) {
                return Some(at);
            }
            next = self.partner(at);
        }
        None
    }

    /// Where the part ends that goes up to the first of one text between closed brackets, at the latest at the end.
    pub fn end_at(&self, part: Span, text: &[u8]) -> usize
        ensures { result ≤ part.end }
    {
        match self.find_one(part, text) {
            Some(at) => at,
            None => part.end,
        }
    }

    /// Whether a word stands among these tokens.
    pub fn has_word(&self, part: Span, word: &[u8]) -> bool {
        for at in part.start..part.end {
            if self.is(at, word) {
                return true;
            }
        }
        false
    }
}
