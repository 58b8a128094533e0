//! Tokens.

use gang_model::Mark;
use gang_types::Place;

/// A number's value, and what its suffix says.
#[derive(Clone, Copy, Debug, PartialEq, Eq, Drop)]
pub struct Number {
    pub value: u64,
    pub is_unsigned: bool,
    pub is_long: bool,
}

/// What a token is: a name with its bytes, a number, or a mark or reserved word.
#[derive(Debug, Drop)]
pub enum Kind {
    Name(Vec<u8>),
    Number(Number),
    Mark(Mark),
}

/// A token: the source's bytes from `start` up to `end`, and the place where it begins.
#[derive(Debug, Drop)]
pub struct Token {
    pub kind: Kind,
    pub start: usize,
    pub end: usize,
    pub place: Place,
}
