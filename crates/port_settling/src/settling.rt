//! Blanks and comments of what was left out.
use port_draft::Draft;
use port_tokens::{Kind, NONE, Span, Token};
use std::alloc::AllocError;

/// Puts what is written in the place of the tokens. What stands before a token that was left out stands before the next.
pub(crate) fn settle(draft: &mut Draft) -> Result<(), AllocError> {
    draft.tokens.truncate(0);
    let count = draft.written.len();
    let mut waiting = NONE;
    for number in 0..count {
        let token = draft.written.token(number);
        let before = glued(draft, waiting, token.before)?;
        if token.kind == Kind::Nothing && number.saturating_add(1) < count {
            waiting = glued(draft, before, token.text)?;
        } else {
            draft.tokens.push(Token { before, ..token })?;
            waiting = NONE;
        }
    }
    draft.written.truncate(0);
    Ok(())
}

/// Two parts of the texts behind each other. Spaces alone are not put behind others.
fn glued(draft: &mut Draft, front: Span, back: Span) -> Result<Span, AllocError> {
    if front == NONE {
        return Ok(back);
    }
    if is_spaces(draft.pool.text(back)) {
        return Ok(front);
    }
    let start = draft.pool.len();
    draft.pool.repeat(front)?;
    draft.pool.repeat(back)?;
    Ok(draft.pool.since(start))
}

fn is_spaces(text: &[u8]) -> bool {
    for byte in text {
        if *byte != b' ' {
            return false;
        }
    }
    true
}
