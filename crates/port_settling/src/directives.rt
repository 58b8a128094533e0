//! Lines of the preprocessor.
use crate::macros::define;
use port_draft::Draft;
use port_tokens::{Kind, PortRefusal, Reason, Span, Token, blanks_end, byte, refusal_at, word_end};
use std::alloc::AllocError;

/// Reads a line of the preprocessor, and keeps it as a comment.
pub(crate) fn expand_directive(draft: &mut Draft, token: Token) -> Result<(), PortRefusal> {
    let word = directive_word(draft.pool.text(token.text))?;
    let start = token.text.start;
    let name = Span {
        start: start.saturating_add(word.start),
        end: start.saturating_add(word.end),
    };
    if draft.pool.is(name, b"define") {
        define(draft, token, name.end)?;
    } else if !draft.pool.is(name, b"pragma") {
        return Err(refusal_at(token.at, Reason::Directive));
    } else if goes_on(draft.pool.text(token.text)) {
        return Err(refusal_at(token.at, Reason::OpenComment));
    }
    Ok(put_comment(draft, token)?)
}

/// The word behind the first mark of a line.
fn directive_word(line: &[u8]) -> Result<Span, PortRefusal> {
    let start = blanks_end(line, 1, line.len())?;
    Ok(Span {
        start,
        end: word_end(line, start, line.len()),
    })
}

/// Whether a line goes on behind its end.
fn goes_on(line: &[u8]) -> bool {
    for at in 0..line.len() {
        if byte(line, at) == b'/' && byte(line, at.saturating_add(1)) == b'*' {
            return true;
        }
    }
    line.trim_ascii().ends_with(b"\\")
}

/// Writes a line as a comment.
fn put_comment(draft: &mut Draft, token: Token) -> Result<(), AllocError> {
    let start = draft.pool.len();
    draft.pool.add(b"// ")?;
    draft.pool.repeat(token.text)?;
    let text = draft.pool.since(start);
    draft.put(Token {
        text,
        kind: Kind::Nothing,
        ..token
    })
}
