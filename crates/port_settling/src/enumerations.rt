//! Enumerations, as constants, and types that have a second name.
use crate::expanding::{expand_body, expand_word, leave_out, put_word};
use crate::macros::keep_macro;
use port_draft::{Draft, Meaning};
use port_tokens::{Kind, NONE, PortRefusal, Reason, Span, Token};
use std::alloc::AllocError;

/// Writes constants for an enumeration, or `int` for its type, and says where what is next stands.
pub(crate) fn expand_enumeration(draft: &mut Draft, at: usize) -> Result<usize, PortRefusal> {
    let next = at.saturating_add(1);
    let behind = at.saturating_add(2);
    if draft.is(next, b"{") {
        return expand_constants(draft, at, next);
    }
    if !draft.is_word(next) {
        return Err(draft.refuse(next, Reason::Word));
    }
    if draft.is(behind, b"{") {
        let body = draft.keep_words(&[b"int"])?;
        add_type(draft, next, body)?;
        return expand_constants(draft, at, behind);
    }
    put_word(draft, at, b"int")?;
    Ok(behind)
}

/// Keeps what the name of a type stands for.
fn add_type(draft: &mut Draft, name: usize, body: Span) -> Result<(), AllocError> {
    let name = draft.token(name).text;
    draft.macros.push(Meaning {
        name,
        body,
        is_type: true,
    })
}

/// Writes the constants between the braces of an enumeration.
fn expand_constants(draft: &mut Draft, at: usize, open: usize) -> Result<usize, PortRefusal> {
    let close = find_text(draft, open, b"}");
    if close >= draft.tokens.len() {
        return Err(draft.refuse(open, Reason::Bracket));
    }
    let end = close.saturating_add(1);
    if !draft.is(end, b";") {
        return Err(draft.refuse(end, Reason::Word));
    }
    let line = draft.pool.add(b"\n")?;
    let mut before = draft.token(at).before;
    let mut last = None;
    let mut from = open.saturating_add(1);
    for _ in open..close {
        if from >= close {
            break;
        }
        let to = find_text(draft, from, b",").min(close);
        let part = Span {
            start: from,
            end: to,
        };
        expand_constant(draft, part, before)?;
        expand_value(draft, part, last)?;
        before = line;
        last = Some(from);
        from = to.saturating_add(1);
    }
    leave_out(draft, close)?;
    Ok(end.saturating_add(1))
}

/// Writes a constant of an enumeration up to its value.
fn expand_constant(draft: &mut Draft, part: Span, before: Span) -> Result<(), PortRefusal> {
    let name = draft.token(part.start);
    if name.kind != Kind::Word {
        return Err(draft.refuse(part.start, Reason::Word));
    }
    let words = draft.keep_words(&[b"const", b"uniform", b"int"])?;
    expand_body(draft, Token { before, ..name }, words)?;
    let before = draft.blank;
    draft.put(Token { before, ..name })?;
    let sign = draft.made(b"=", Kind::Mark, name.at)?;
    Ok(draft.put(sign)?)
}

/// Writes the value of a constant, and what ends it. Without one it is one more than the last, if there was one.
fn expand_value(draft: &mut Draft, part: Span, last: Option<usize>) -> Result<(), PortRefusal> {
    let at = draft.token(part.start).at;
    let equals = part.start.saturating_add(1);
    if equals >= part.end {
        expand_next(draft, at, last)?;
    } else if draft.is(equals, b"=") {
        for word in equals.saturating_add(1)..part.end {
            expand_word(draft, word)?;
        }
    } else {
        return Err(draft.refuse(equals, Reason::Word));
    }
    let end = draft.made(b";", Kind::Mark, at)?;
    Ok(draft.put(Token {
        before: NONE,
        ..end
    })?)
}

/// Writes 0, or one more than the last constant.
fn expand_next(draft: &mut Draft, at: usize, last: Option<usize>) -> Result<(), AllocError> {
    let Some(last) = last else {
        let zero = draft.number(0, at)?;
        return draft.put(zero);
    };
    let name = draft.token(last);
    let before = draft.blank;
    draft.put(Token { before, ..name })?;
    let plus = draft.made(b"+", Kind::Mark, at)?;
    draft.put(plus)?;
    let one = draft.number(1, at)?;
    draft.put(one)
}

/// Keeps what a second name of a type stands for, and says where what is next stands.
pub(crate) fn expand_definition(draft: &mut Draft, at: usize) -> Result<usize, PortRefusal> {
    let end = find_text(draft, at, b";");
    if end >= draft.tokens.len() {
        return Err(draft.refuse(at, Reason::Word));
    }
    let name = end.saturating_sub(1);
    let words = Span {
        start: at.saturating_add(1),
        end: name,
    };
    check_words(draft, words)?;
    if words.start >= name || !draft.is_word(name) {
        return Err(draft.refuse(at, Reason::Word));
    }
    let body = keep_type(draft, words)?;
    add_type(draft, name, body)?;
    leave_out(draft, at)?;
    Ok(end.saturating_add(1))
}

/// Refuses what is no word of a type.
fn check_words(draft: &Draft, words: Span) -> Result<(), PortRefusal> {
    for word in words.start..words.end {
        let name = draft.token(word).text;
        if !draft.is_spec(word) && draft.macros.find(&draft.pool, name).is_none() {
            return Err(draft.refuse(word, Reason::Type));
        }
    }
    Ok(())
}

/// Keeps the words of a type, behind all tokens, where nothing follows them.
fn keep_type(draft: &mut Draft, words: Span) -> Result<Span, PortRefusal> {
    let start = draft.tokens.len();
    draft.tokens.repeat(words)?;
    let copied = Span {
        start,
        end: draft.tokens.len(),
    };
    let body = keep_macro(draft, copied)?;
    draft.tokens.truncate(start);
    Ok(body)
}

/// Where the first token from there on stands that has this text; the end of the tokens, if none has.
fn find_text(draft: &Draft, from: usize, text: &[u8]) -> usize {
    let end = draft.tokens.len();
    for at in from..end {
        if draft.is(at, text) {
            return at;
        }
    }
    end
}
