//! The first and the third part of the head of a `for`.
use port_draft::Draft;
use port_statements::{declaration, simple, simple_parts};
use port_tokens::{PortRefusal, Reason, Span};

/// A part of the head of a `for`: which part of the line it is, and whether it is written outside of the head.
#[derive(Clone, Copy)]
pub(crate) struct Part {
    pub(crate) line: Span,
    pub(crate) is_outside: bool,
}

/// The first part of a head, and where the second begins.
#[derive(Clone, Copy)]
pub(crate) struct Start {
    pub(crate) part: Part,
    pub(crate) next: usize,
}

/// Reads the first part of a `for` into the line. It stays in the head if it is one statement.
pub(crate) fn read_start(draft: &mut Draft, at: usize) -> Result<Start, PortRefusal> {
    let (room, count) = (draft.written.len(), draft.statements);
    draft.statements = 0;
    let next = read_first(draft, at)?;
    let start = draft.line.len();
    draft.take_written(room)?;
    let part = Part {
        line: draft.line_from(start),
        is_outside: draft.statements != 1,
    };
    draft.statements = count;
    Ok(Start { part, next })
}

/// Reads a declaration or a simple statement, or none.
fn read_first(draft: &mut Draft, at: usize) -> Result<usize, PortRefusal> {
    if draft.is(at, b";") {
        draft.copy(at)?;
        draft.statements = 1;
        return Ok(at.saturating_add(1));
    }
    if draft.is_spec(at) {
        return declaration(draft, at);
    }
    if draft.is_foreign_type(at) {
        return Err(draft.refuse(at, Reason::Type));
    }
    simple(draft, at)
}

/// Reads the third part of a `for` into the line.
pub(crate) fn read_step(draft: &mut Draft, part: Span) -> Result<Part, PortRefusal> {
    let (room, count) = (draft.written.len(), draft.statements);
    draft.statements = 0;
    let indent = draft.indent;
    if part.start < part.end {
        simple_parts(draft, indent, part)?;
    }
    let start = draft.line.len();
    draft.take_written(room)?;
    let is_outside = draft.statements > 1;
    draft.statements = count;
    if !is_outside {
        close_step(draft, part.start, start);
    }
    Ok(Part {
        line: draft.line_from(start),
        is_outside,
    })
}

/// Takes its last mark from a step that stays in the head, and gives it the blanks that stood before it.
fn close_step(draft: &mut Draft, at: usize, start: usize) {
    let end = draft.line.len().saturating_sub(1);
    draft.line.truncate(end.max(start));
    let before = draft.token(at).before;
    draft.line.space(start, before);
}
