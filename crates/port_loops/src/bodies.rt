//! Bodies of statements.
use port_draft::Draft;
use port_statements::{enclose_from, leave_room, line_start};
use port_tokens::{NONE, Span};
use std::alloc::AllocError;

/// The parts of the line that are written before and behind the statements of a body.
#[derive(Clone, Copy)]
pub(crate) struct Around {
    pub(crate) front: Span,
    pub(crate) back: Span,
}

/// Nothing before and behind.
pub(crate) const NOTHING_AROUND: Around = Around {
    front: NONE,
    back: NONE,
};

pub(crate) fn is_empty(part: Span) -> bool {
    part.start >= part.end
}

/// What stood when a body began: how many statements and names, the blanks before its braces, and the room for the first of them.
#[derive(Clone, Copy)]
pub(crate) struct Body {
    statements: usize,
    names: usize,
    indent: Span,
    room: usize,
}

/// Whether a body is a block as it stands.
pub(crate) fn is_block(draft: &Draft, at: usize, around: Around) -> bool {
    draft.is(at, b"{") && is_empty(around.back)
}

/// Begins a body that may need braces.
pub(crate) fn begin_body(draft: &mut Draft, at: usize, around: Around) -> Result<Body, AllocError> {
    let start = line_start(draft, draft.token(at).before);
    let is_below = start != draft.blank || !is_empty(around.back);
    let indent = if is_below { draft.outer } else { draft.blank };
    let body = Body {
        statements: draft.statements,
        names: draft.names.len(),
        indent,
        room: leave_room(draft)?,
    };
    draft.put_line(around.front)?;
    draft.statements = 0;
    Ok(body)
}

/// Ends a body. Several statements are enclosed in braces.
pub(crate) fn end_body(draft: &mut Draft, body: Body, around: Around) -> Result<(), AllocError> {
    let is_one = draft.statements == 1 && is_empty(around.front) && is_empty(around.back);
    draft.put_line(around.back)?;
    if !is_one {
        enclose_from(draft, body.room, body.indent)?;
    }
    draft.names.truncate(body.names);
    draft.statements = body.statements;
    Ok(())
}
