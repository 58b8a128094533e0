//! The tokens of a text, with the blanks and comments before each.

/// A part of the texts that a pool keeps, or of a list of tokens.
#[derive(Clone, Copy, PartialEq, Eq)]
pub struct Span {
    pub start: usize,
    pub end: usize,
}

/// What a token is. Nothing stands for what was left out, of which the blanks and comments before it are kept.
#[derive(Clone, Copy, PartialEq, Eq)]
pub enum Kind {
    Word,
    Number,
    Character,
    Mark,
    Directive,
    Nothing,
}

/// A token: the blanks and comments before it, its text, and where in the source it or its reason stands.
#[derive(Clone, Copy)]
pub struct Token {
    pub before: Span,
    pub text: Span,
    pub at: usize,
    pub kind: Kind,
}

/// No text.
pub const NONE: Span = Span { start: 0, end: 0 };

/// A token of no text.
pub const NOTHING: Token = Token {
    before: NONE,
    text: NONE,
    at: 0,
    kind: Kind::Nothing,
};

/// Whether a text is one of these.
pub fn is_one_of(text: &[u8], texts: &[&[u8]]) -> bool {
    for it in texts {
        if *it == text {
            return true;
        }
    }
    false
}
