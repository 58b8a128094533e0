//! What macros and other names stand for, in the place of the tokens that were read.
use crate::characters::{expand_character, expand_number};
use crate::directives::expand_directive;
use crate::enumerations::{expand_definition, expand_enumeration};
use crate::settling::settle;
use port_draft::{Draft, Meaning};
use port_tokens::{Kind, NONE, PortRefusal, Reason, Span, Token};
use std::alloc::AllocError;

/// The most tokens that macros make of a source.
pub(crate) const MOST_TOKENS: usize = 131_072;

/// The types of other names, and what they are called here.
const FOREIGN: &[(&[u8], &[u8])] = &[
    (b"int8_t", b"int8"),
    (b"int16_t", b"int16"),
    (b"int32_t", b"int32"),
    (b"int64_t", b"int64"),
    (b"uint8_t", b"uint8"),
    (b"uint16_t", b"uint16"),
    (b"uint32_t", b"uint32"),
    (b"uint64_t", b"uint64"),
    (b"size_t", b"uint64"),
    (b"ptrdiff_t", b"int64"),
    (b"uintptr_t", b"uint64"),
];

/// Puts what macros and other names of types stand for in the place of the tokens.
///
/// # Errors
///
/// What is not ported, and where; or out of memory.
pub fn expand(draft: &mut Draft) -> Result<(), PortRefusal> {
    let mut next = 0usize;
    let count = draft.tokens.len();
    for at in 0..count {
        if at < next {
            continue;
        }
        next = expand_at(draft, at)?;
        if draft.written.len() > MOST_TOKENS {
            return Err(draft.refuse(at, Reason::TooMany));
        }
    }
    Ok(settle(draft)?)
}

/// Writes what stands there, and says where what is next does.
fn expand_at(draft: &mut Draft, at: usize) -> Result<usize, PortRefusal> {
    if draft.is_word(at) {
        if draft.is(at, b"enum") {
            return expand_enumeration(draft, at);
        }
        if draft.is(at, b"typedef") {
            return expand_definition(draft, at);
        }
    }
    let token = draft.token(at);
    if token.kind == Kind::Directive {
        expand_directive(draft, token)?;
    } else {
        expand_token(draft, at)?;
    }
    Ok(at.saturating_add(1))
}

/// Writes a word, a number, a character or a mark.
pub(crate) fn expand_token(draft: &mut Draft, at: usize) -> Result<(), PortRefusal> {
    let token = draft.token(at);
    match token.kind {
        Kind::Character => expand_character(draft, token),
        Kind::Word => Ok(expand_word(draft, at)?),
        Kind::Number => Ok(expand_number(draft, token)?),
        Kind::Mark | Kind::Directive | Kind::Nothing => Ok(draft.put(token)?),
    }
}

/// Writes a word, or what it stands for.
pub(crate) fn expand_word(draft: &mut Draft, at: usize) -> Result<(), AllocError> {
    if let Some(known) = draft.macros.find(&draft.pool, draft.token(at).text) {
        return expand_meaning(draft, at, known);
    }
    if draft.is_type_place(at) {
        if let Some(own) = own_type(draft.text(at)) {
            return put_word(draft, at, own);
        }
        if draft.is(at, b"noinline") {
            return leave_out(draft, at);
        }
    }
    if draft.is(at, b"signed") {
        return expand_signed(draft, at);
    }
    draft.copy(at)
}

/// What a type of another name is called here.
fn own_type(word: &[u8]) -> Option<&'static [u8]> {
    for row in FOREIGN {
        if row.0 == word {
            return Some(row.1);
        }
    }
    None
}

/// Writes what a word stands for. A name of a type stands for itself elsewhere.
fn expand_meaning(draft: &mut Draft, at: usize, known: Meaning) -> Result<(), AllocError> {
    if known.is_type && !draft.is_type_place(at) {
        return draft.copy(at);
    }
    let token = draft.token(at);
    expand_body(draft, token, known.body)
}

/// Leaves out `signed` before a type, and writes `int` elsewhere.
fn expand_signed(draft: &mut Draft, at: usize) -> Result<(), AllocError> {
    let next = draft.text(at.saturating_add(1));
    if next.starts_with(b"int") {
        return leave_out(draft, at);
    }
    put_word(draft, at, b"int")
}

/// Writes a text in the place of the token there.
pub(crate) fn put_word(draft: &mut Draft, at: usize, text: &[u8]) -> Result<(), AllocError> {
    let text = draft.pool.add(text)?;
    let token = draft.token(at);
    draft.put(Token { text, ..token })
}

/// Writes what is left of the token there that is left out: the blanks and comments before it.
pub(crate) fn leave_out(draft: &mut Draft, at: usize) -> Result<(), AllocError> {
    let token = draft.token(at);
    draft.put(Token {
        text: NONE,
        kind: Kind::Nothing,
        ..token
    })
}

/// Writes kept tokens in the place of one.
pub(crate) fn expand_body(draft: &mut Draft, token: Token, body: Span) -> Result<(), AllocError> {
    let mut before = token.before;
    for number in body.start..body.end {
        let part = draft.bodies.token(number);
        if number > body.start {
            before = part.before;
        }
        draft.put(Token {
            before,
            at: token.at,
            ..part
        })?;
    }
    Ok(())
}
