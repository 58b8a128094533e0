//! Macros that stand for a type or an expression.
use crate::expanding::{MOST_TOKENS, expand_token};
use port_draft::{Draft, Meaning};
use port_tokens::{
    Kind, NONE, Pool, PortRefusal, Reason, Span, Token, byte, is_one_of, read_tokens, refusal_at,
};
use std::alloc::AllocError;

/// Marks that no macro stands for.
const OUTSIDE: &[&[u8]] = &[b";", b"{", b"}", b"=", b","];

/// Reads the definition of a macro, which goes on behind a place of its line.
pub(crate) fn define(draft: &mut Draft, token: Token, start: usize) -> Result<(), PortRefusal> {
    let first = draft.tokens.len();
    let part = Span {
        start,
        end: token.text.end,
    };
    read_tokens(draft.pool.bytes(), part, &mut draft.tokens)?;
    let name = draft.token(first);
    check_name(draft, name)?;
    let tokens = Span {
        start: first.saturating_add(1),
        end: draft.tokens.len(),
    };
    let body = keep_macro(draft, tokens)?;
    draft.tokens.truncate(first);
    let meaning = Meaning {
        name: name.text,
        body,
        is_type: false,
    };
    Ok(draft.macros.push(meaning)?)
}

/// Refuses what is no name of a macro, and a macro that was defined or named before.
fn check_name(draft: &Draft, name: Token) -> Result<(), PortRefusal> {
    if name.kind != Kind::Word {
        return Err(refusal_at(name.at, Reason::Directive));
    }
    if byte(draft.pool.bytes(), name.text.end) == b'(' {
        return Err(refusal_at(name.at, Reason::MacroArguments));
    }
    if is_known(draft, name) {
        return Err(refusal_at(name.at, Reason::MacroTwice));
    }
    Ok(())
}

fn is_known(draft: &Draft, name: Token) -> bool {
    if let Some(_) = draft.macros.find(&draft.pool, name.text) {
        return true;
    }
    for number in 0..draft.bodies.len() {
        let token = draft.bodies.token(number);
        if draft.pool.are_same(token.text, name.text) {
            return true;
        }
    }
    false
}

/// Keeps what a macro stands for: its tokens with the macros in it written out, in parentheses where it has marks.
pub(crate) fn keep_macro(draft: &mut Draft, tokens: Span) -> Result<Span, PortRefusal> {
    let room = draft.written.len();
    for at in tokens.start..tokens.end {
        expand_part(draft, at, room)?;
    }
    let written = Span {
        start: room,
        end: draft.written.len(),
    };
    let start = draft.bodies.len();
    if is_closed(&draft.pool, draft.written.part(written)) {
        draft.bodies.extend(draft.written.part(written))?;
    } else {
        check_operators(&draft.pool, draft.written.part(written))?;
        keep_enclosed(draft, written)?;
    }
    draft.written.truncate(room);
    Ok(draft.bodies_from(start))
}

/// Writes a token of a macro's body.
fn expand_part(draft: &mut Draft, at: usize, room: usize) -> Result<(), PortRefusal> {
    let token = draft.token(at);
    if token.kind == Kind::Nothing {
        return Ok(());
    }
    let is_outside = token.kind == Kind::Mark && is_one_of(draft.text(at), OUTSIDE);
    if is_outside || token.kind == Kind::Directive {
        return Err(refusal_at(token.at, Reason::MacroBody));
    }
    expand_token(draft, at)?;
    if draft.written.len().saturating_sub(room) > MOST_TOKENS {
        return Err(refusal_at(token.at, Reason::TooMany));
    }
    Ok(())
}

/// Whether tokens are used as they are: they have no marks, or one pair of parentheses encloses them all.
fn is_closed(pool: &Pool, tokens: &[Token]) -> bool {
    is_enclosed(pool, tokens) || !has_marks(tokens)
}

fn has_marks(tokens: &[Token]) -> bool {
    for token in tokens {
        if token.kind == Kind::Mark {
            return true;
        }
    }
    false
}

/// Whether one pair of parentheses encloses all tokens.
fn is_enclosed(pool: &Pool, tokens: &[Token]) -> bool {
    let (mut open, mut count) = (0usize, 0usize);
    for token in tokens {
        count = count.saturating_add(1);
        if pool.is(token.text, b"(") {
            open = open.saturating_add(1);
        } else if pool.is(token.text, b")") {
            open = open.saturating_sub(1);
        }
        if open == 0 {
            return count > 1 && count == tokens.len();
        }
    }
    false
}

/// Refuses an operator that stands behind a value and outside all brackets: where the macro is used, a part of its body
/// could belong to an operator beside it.
fn check_operators(pool: &Pool, tokens: &[Token]) -> Result<(), PortRefusal> {
    let (mut open, mut is_behind_value) = (0usize, false);
    for token in tokens {
        let is_mark = token.kind == Kind::Mark;
        if is_one_of(pool.text(token.text), &[b"(", b"["]) {
            open = open.saturating_add(1);
        } else if is_one_of(pool.text(token.text), &[b")", b"]"]) {
            open = open.saturating_sub(1);
            is_behind_value = true;
        } else if is_mark && is_behind_value && open == 0 {
            return Err(refusal_at(token.at, Reason::MacroBody));
        } else {
            is_behind_value = !is_mark;
        }
    }
    Ok(())
}

/// Keeps what is written in parentheses.
fn keep_enclosed(draft: &mut Draft, written: Span) -> Result<(), AllocError> {
    let open = draft.made(b"(", Kind::Mark, 0)?;
    let close = draft.made(b")", Kind::Mark, 0)?;
    draft.bodies.push(open)?;
    draft.bodies.append(NONE, draft.written.part(written))?;
    draft.bodies.push(Token {
        before: NONE,
        ..close
    })
}
