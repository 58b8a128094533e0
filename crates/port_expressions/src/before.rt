//! What comes before and behind the statement that is read.
use port_draft::Draft;
use port_tokens::{Kind, NONE, PortRefusal, Reason, Span, Token};
use std::alloc::AllocError;

/// Puts the line from there on before the statement, as one in its line.
fn put_before(draft: &mut Draft, start: usize) -> Result<(), AllocError> {
    let end = statement_end(draft)?;
    let part = draft.line_from(start);
    draft.before.append(draft.indent, draft.line.part(part))?;
    draft.before.push(end)
}

/// Puts the line from there on behind the statement, as one in its line.
fn put_behind(draft: &mut Draft, start: usize) -> Result<(), AllocError> {
    let end = statement_end(draft)?;
    let part = draft.line_from(start);
    draft.behind.append(draft.indent, draft.line.part(part))?;
    draft.behind.push(end)
}

fn statement_end(draft: &mut Draft) -> Result<Token, AllocError> {
    let end = draft.made(b";", Kind::Mark, 0)?;
    Ok(Token {
        before: NONE,
        ..end
    })
}

/// Puts the line from there on before the statement, and leaves of it what stands up to a place.
pub(crate) fn put_assignment(draft: &mut Draft, part: Span) -> Result<(), AllocError> {
    put_before(draft, part.start)?;
    draft.line.truncate(part.end);
    Ok(())
}

/// Puts the declaration of a fresh variable before the statement, which has the value of a part of the line.
fn put_variable(
    draft: &mut Draft,
    body: Span,
    stem: Span,
    value: Span,
) -> Result<Token, AllocError> {
    let name = draft.fresh(stem)?;
    let start = draft.line.len();
    draft.push_body(body)?;
    draft.line.push(name)?;
    draft.push_text(b"=")?;
    draft.push_again(value)?;
    put_before(draft, start)?;
    draft.line.truncate(start);
    Ok(name)
}

/// Leaves of the line from there on a name, with the blanks of the token for which it stands.
pub(crate) fn leave_name(
    draft: &mut Draft,
    start: usize,
    name: Token,
    at: usize,
) -> Result<(), AllocError> {
    draft.line.truncate(start);
    let before = draft.token(at).before;
    draft.line.push(Token { before, ..name })
}

/// Puts the call that the line has from there on before the statement, and leaves the variable that has its value.
pub(crate) fn put_call(draft: &mut Draft, at: usize, start: usize) -> Result<(), PortRefusal> {
    let body = draft.given_type(at)?;
    if body == NONE || draft.body_has(body, b"void") {
        return Err(draft.refuse(at, Reason::UnknownType));
    }
    let stem = stem_of(draft, at)?;
    let value = draft.line_from(start);
    let name = put_variable(draft, body, stem, value)?;
    Ok(leave_name(draft, start, name, at)?)
}

/// What the name of a variable begins with that has the value of a call.
fn stem_of(draft: &mut Draft, at: usize) -> Result<Span, AllocError> {
    if draft.is_function(at) {
        return Ok(draft.token(at).text);
    }
    draft.pool.add(b"packed")
}

/// Puts a variable before the statement that has the truth of the first side of a part, which the line has from there on.
pub(crate) fn put_truth(draft: &mut Draft, part: Span, start: usize) -> Result<Token, AllocError> {
    let body = if draft.is_uniform(part) {
        draft.keep_words(&[b"uniform", b"bool"])?
    } else {
        draft.keep_words(&[b"bool"])?
    };
    let stem = draft.pool.add(b"holds")?;
    let value = draft.line_from(start);
    let name = put_variable(draft, body, stem, value)?;
    draft.line.truncate(start);
    Ok(name)
}

/// Begins a block before the statement for the lanes that need a further side: its front is this text and the name.
pub(crate) fn put_guard(draft: &mut Draft, front: &[u8], name: Token) -> Result<(), AllocError> {
    let head = draft.made(front, Kind::Word, 0)?;
    let before = draft.indent;
    draft.before.push(Token { before, ..head })?;
    draft.before.push(Token {
        before: NONE,
        ..name
    })?;
    let open = draft.made(b") {", Kind::Mark, 0)?;
    draft.before.push(Token {
        before: NONE,
        ..open
    })
}

/// Gives the name the value that the line has from there on, and ends the block.
pub(crate) fn put_guarded(draft: &mut Draft, name: Token, start: usize) -> Result<(), AllocError> {
    let value = draft.line_from(start);
    draft.line.push(name)?;
    draft.push_text(b"=")?;
    draft.push_again(value)?;
    put_before(draft, value.end)?;
    draft.line.truncate(start);
    let close = draft.made(b"}", Kind::Mark, 0)?;
    let before = draft.indent;
    draft.before.push(Token { before, ..close })
}

/// Puts what `++` or `--` changes before or behind the statement, and leaves its value. The line has the target from there on.
pub(crate) fn put_change(
    draft: &mut Draft,
    at: usize,
    sign: usize,
    start: usize,
) -> Result<(), PortRefusal> {
    let target = draft.line_from(start);
    push_change(draft, target, sign)?;
    if sign < at {
        put_before(draft, target.end)?;
    } else if draft.is_late {
        put_behind(draft, target.end)?;
    } else {
        return put_old(draft, at, target);
    }
    draft.line.truncate(target.end);
    Ok(())
}

/// Puts a target with the sign of its change into the line.
fn push_change(draft: &mut Draft, target: Span, sign: usize) -> Result<(), AllocError> {
    draft.line.repeat(target)?;
    let token = draft.token(sign);
    draft.line.push(Token {
        before: NONE,
        ..token
    })
}

/// Puts a variable with the value of a target before the statement, and then its change, which the line has behind the target.
fn put_old(draft: &mut Draft, at: usize, target: Span) -> Result<(), PortRefusal> {
    let Some(known) = draft.known(at) else {
        return Err(draft.refuse(at, Reason::UnknownType));
    };
    if known.body.start >= known.body.end {
        return Err(draft.refuse(at, Reason::UnknownType));
    }
    let stem = draft.token(at).text;
    let name = put_variable(draft, known.body, stem, target)?;
    put_before(draft, target.end)?;
    Ok(leave_name(draft, target.start, name, at)?)
}

/// Leaves in the line from there on, in place of a statement, what stands before the statement that is read from a place on, and then it.
pub fn arm_statement(draft: &mut Draft, start: usize, before: usize) -> Result<(), AllocError> {
    put_before(draft, start)?;
    draft.line.truncate(start);
    let part = Span {
        start: before,
        end: draft.before.len(),
    };
    draft.line.extend(draft.before.part(part))?;
    draft.before.truncate(before);
    Ok(())
}
