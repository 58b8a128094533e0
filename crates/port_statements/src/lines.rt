//! How statements are written, with what comes before and behind them.
use port_draft::{DEPTH, Draft};
use port_expressions::expression;
use port_tokens::{Kind, NONE, NOTHING, PortRefusal, Reason, Span, Token};
use std::alloc::AllocError;

/// Begins the statement that stands there, and gives the blanks before it.
pub fn begin(draft: &mut Draft, at: usize) -> Span {
    let before = draft.token(at).before;
    draft.indent = line_start(draft, before);
    if draft.indent != draft.blank {
        draft.outer = draft.indent;
    }
    draft.is_late = false;
    before
}

/// The last line end of some blanks, with the blanks behind it; one blank, if no line ends there.
pub fn line_start(draft: &Draft, before: Span) -> Span {
    let mut start = None;
    let mut end = before.start;
    for at in before.start..before.end {
        let byte = draft.pool.byte(at);
        if byte == b'\n' {
            start = Some(at);
        }
        let is_behind = end == at && (byte == b' ' || byte == b'\t');
        if byte == b'\n' || is_behind {
            end = at.saturating_add(1);
        }
    }
    match start {
        Some(start) => Span { start, end },
        None => draft.blank,
    }
}

/// The blanks before a statement of the body that begins there.
pub fn inner_indent(draft: &Draft, body: usize) -> Span {
    let first = if draft.is(body, b"{") {
        body.saturating_add(1)
    } else {
        body
    };
    let found = line_start(draft, draft.token(first).before);
    if found == draft.blank {
        draft.indent
    } else {
        found
    }
}

/// Writes the statement that the line has from there on behind what comes before it, and in front of what comes behind it.
pub fn finish(draft: &mut Draft, first: Span, start: usize) -> Result<(), AllocError> {
    let mut blanks = first;
    if !draft.before.is_empty() {
        let before = all_before(draft);
        draft.written.append(first, draft.before.part(before))?;
        blanks = draft.indent;
        draft.statements = draft.statements.saturating_add(1);
    }
    write(draft, blanks, start)?;
    if !draft.behind.is_empty() {
        put_behind(draft)?;
    }
    draft.before.truncate(0);
    draft.statements = draft.statements.saturating_add(1);
    Ok(())
}

fn all_before(draft: &Draft) -> Span {
    Span {
        start: 0,
        end: draft.before.len(),
    }
}

/// Writes what comes behind a statement.
fn put_behind(draft: &mut Draft) -> Result<(), AllocError> {
    let behind = Span {
        start: 0,
        end: draft.behind.len(),
    };
    draft.written.extend(draft.behind.part(behind))?;
    draft.behind.truncate(0);
    draft.statements = draft.statements.saturating_add(1);
    Ok(())
}

/// Writes what the line has from there on, the first token behind these blanks.
pub fn write(draft: &mut Draft, first: Span, start: usize) -> Result<(), AllocError> {
    let part = draft.line_from(start);
    draft.written.append(first, draft.line.part(part))?;
    draft.line.truncate(start);
    Ok(())
}

/// Writes the blanks and comments before the token there.
pub fn leave_out(draft: &mut Draft, at: usize) -> Result<(), AllocError> {
    let before = draft.token(at).before;
    write_left(draft, before)
}

/// Writes the comments before what is left out, if there are some.
pub(crate) fn write_left(draft: &mut Draft, before: Span) -> Result<(), AllocError> {
    if has_comment(draft, before) {
        draft.put(Token { before, ..NOTHING })
    } else {
        Ok(())
    }
}

/// Whether some blanks have a comment among them.
fn has_comment(draft: &Draft, before: Span) -> bool {
    for at in before.start..before.end {
        if draft.pool.byte(at) == b'/' {
            return true;
        }
    }
    false
}

/// Puts a `;` into the line in the place of the mark there.
pub fn ending(draft: &mut Draft, at: usize) -> Result<(), AllocError> {
    let before = draft.token(at).before;
    draft.push_behind(before, b";")
}

/// The blanks before a further statement or name, which stands there: those of its line, or its own with their comments.
pub fn further(draft: &Draft, at: usize) -> Span {
    let before = draft.token(at).before;
    if has_comment(draft, before) {
        before
    } else {
        draft.indent
    }
}

/// Where the statement ends that goes on there.
pub fn end_of(draft: &Draft, from: usize) -> Result<usize, PortRefusal> {
    let mut next = from;
    for at in from..draft.tokens.len() {
        if at < next {
            continue;
        }
        if draft.is(at, b";") {
            return Ok(at);
        }
        next = draft.partner(at);
        if next < at || draft.token(at).kind == Kind::Nothing {
            return Err(draft.refuse(at, Reason::Statement));
        }
        next = next.saturating_add(1);
    }
    Err(draft.refuse(from, Reason::Statement))
}

/// Leaves room for a brace, and says where.
pub fn leave_room(draft: &mut Draft) -> Result<usize, AllocError> {
    let room = draft.written.len();
    draft.put(NOTHING)?;
    Ok(room)
}

/// Encloses what is written from there on in braces.
pub fn enclose_from(draft: &mut Draft, room: usize, before: Span) -> Result<(), AllocError> {
    let open = draft.made(b"{", Kind::Mark, 0)?;
    draft.written.replace(room, open);
    let close = draft.made(b"}", Kind::Mark, 0)?;
    draft.put(Token { before, ..close })
}

/// Puts what comes before a loop's test into the line, and a statement that leaves the loop where the test fails, which the
/// line has from there on.
pub fn leaving(draft: &mut Draft, test: usize) -> Result<Span, AllocError> {
    let part = draft.line_from(test);
    let before = all_before(draft);
    draft.line.extend(draft.before.part(before))?;
    draft.before.truncate(0);
    push_leaving(draft, part)?;
    Ok(draft.line_from(part.end))
}

/// Puts a statement into the line that leaves a loop where a test fails.
fn push_leaving(draft: &mut Draft, test: Span) -> Result<(), AllocError> {
    let indent = draft.indent;
    draft.push_behind(indent, b"if (!")?;
    let start = draft.line.len();
    draft.line.repeat(test)?;
    draft.enclose_operand(start)?;
    draft.line.space(start, NONE);
    draft.push_close(b") break;")
}

/// Puts a test or another value in the head of a statement into the line.
///
/// # Errors
///
/// What is not ported, and where; or out of memory.
pub fn head_value(draft: &mut Draft, part: Span) -> Result<(), PortRefusal> {
    draft.region = part;
    draft.is_late = false;
    expression(draft, part, DEPTH)
}

/// Whether `continue` stands in what is written from there on.
pub fn has_continue(draft: &Draft, from: usize) -> bool {
    for number in from..draft.written.len() {
        if draft.pool.is(draft.written.token(number).text, b"continue") {
            return true;
        }
    }
    false
}
