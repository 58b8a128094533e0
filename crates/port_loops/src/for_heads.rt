//! The head of a `for`.
use crate::bodies::{Around, is_empty};
use crate::for_parts::{Part, Start, read_start, read_step};
use crate::heads::{head_of, push_open};
use port_draft::Draft;
use port_statements::{begin, end_of, finish, has_continue, head_value, inner_indent, leaving};
use port_tokens::{Kind, NONE, PortRefusal, Reason, Span, Token};
use std::alloc::AllocError;

/// What was read of the head of a `for`: where its step and its body begin, what stands before and behind the statements of
/// the body, and whether a brace is open around it.
#[derive(Clone, Copy)]
pub(crate) struct ForHead {
    pub(crate) body: usize,
    pub(crate) around: Around,
    step: usize,
    is_enclosed: bool,
    indent: Span,
}

/// The parts of a head: its word, what stands in its parentheses, its first part, its test with what leaves the loop at the
/// front of the body in its place, the mark behind it, and its step.
#[derive(Clone, Copy)]
struct Parts {
    at: usize,
    inside: Span,
    start: Part,
    test: Span,
    front: Span,
    mark: usize,
    step: Part,
}

impl Parts {
    /// What stands before and behind the statements of the body.
    fn around(&self) -> Around {
        Around {
            front: self.front,
            back: if self.step.is_outside {
                self.step.line
            } else {
                NONE
            },
        }
    }
}

/// Reads and writes the head of a `for`.
pub(crate) fn read_for_head(draft: &mut Draft, at: usize) -> Result<ForHead, PortRefusal> {
    let first = begin(draft, at);
    let indent = draft.indent;
    let inside = head_of(draft, at)?;
    let start = read_start(draft, inside.start)?;
    let is_outside = start.part.is_outside;
    let is_enclosed = is_outside && draft.is_spec(inside.start);
    let outer = if is_enclosed { indent } else { first };
    write_start(draft, first, outer, start.part, is_enclosed)?;
    let body = inside.end.saturating_add(1);
    draft.indent = indent;
    draft.indent = inner_indent(draft, body);
    let parts = read_parts(draft, at, inside, start)?;
    let line = draft.line.len();
    push_head(draft, &parts)?;
    draft.indent = indent;
    let before = if is_outside { indent } else { first };
    finish(draft, before, line)?;
    Ok(ForHead {
        body,
        around: parts.around(),
        step: parts.mark.saturating_add(1),
        is_enclosed,
        indent,
    })
}

/// Writes the first part of a `for` before it, if it is outside of its head: behind a brace, if it declares something.
fn write_start(
    draft: &mut Draft,
    first: Span,
    before: Span,
    start: Part,
    is_enclosed: bool,
) -> Result<(), AllocError> {
    if !start.is_outside {
        return Ok(());
    }
    if is_enclosed {
        put_brace(draft, first, b"{")?;
    } else {
        draft.statements = draft.statements.saturating_add(1);
    }
    draft.written.append(before, draft.line.part(start.line))
}

/// Writes a brace behind these blanks.
fn put_brace(draft: &mut Draft, before: Span, brace: &[u8]) -> Result<(), AllocError> {
    let token = draft.made(brace, Kind::Mark, 0)?;
    draft.put(Token { before, ..token })
}

/// Reads the test and the step of a `for` into the line.
fn read_parts(
    draft: &mut Draft,
    at: usize,
    inside: Span,
    start: Start,
) -> Result<Parts, PortRefusal> {
    let mark = end_of(draft, start.next)?;
    let line = draft.line.len();
    let condition = Span {
        start: start.next,
        end: mark,
    };
    head_value(draft, condition)?;
    let test = draft.line_from(line);
    let front = if draft.before.is_empty() {
        NONE
    } else {
        leaving(draft, line)?
    };
    let rest = Span {
        start: mark.saturating_add(1),
        end: inside.end,
    };
    let step = read_step(draft, rest)?;
    Ok(Parts {
        at,
        inside,
        start: start.part,
        test,
        front,
        mark,
        step,
    })
}

/// Puts a head into the line.
fn push_head(draft: &mut Draft, parts: &Parts) -> Result<(), PortRefusal> {
    push_open(draft, parts.at)?;
    if parts.start.is_outside {
        push_end(draft, parts.inside.start)?;
    } else {
        draft.line.repeat(parts.start.line)?;
    }
    if is_empty(parts.front) {
        draft.line.repeat(parts.test)?;
    }
    draft.push(parts.mark)?;
    if !parts.step.is_outside {
        draft.line.repeat(parts.step.line)?;
    }
    Ok(draft.push(parts.inside.end)?)
}

/// Puts the end of a first part into the line in its place.
fn push_end(draft: &mut Draft, start: usize) -> Result<(), PortRefusal> {
    let end = end_of(draft, start)?;
    let token = draft.token(end);
    Ok(
        draft.line.push(Token {
            before: NONE,
            ..token
        })?,
    )
}

/// Ends a `for`, whose body is written from there on.
pub(crate) fn end_for(draft: &mut Draft, head: &ForHead, start: usize) -> Result<(), PortRefusal> {
    if !is_empty(head.around.back) && has_continue(draft, start) {
        return Err(draft.refuse(head.step, Reason::StepAndContinue));
    }
    if head.is_enclosed {
        put_brace(draft, head.indent, b"}")?;
    }
    Ok(())
}
