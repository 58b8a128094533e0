//! The heads of `if`, `switch`, `while` and the loops over ranges and lanes.
use crate::ranges::{push_dimensions, push_lanes};
use port_draft::{Draft, Known};
use port_statements::{begin, finish, head_value, inner_indent, leaving};
use port_tokens::{NONE, PortRefusal, Reason, Span, is_one_of};
use std::alloc::AllocError;

/// The part between the parentheses behind a word.
pub(crate) fn head_of(draft: &Draft, at: usize) -> Result<Span, PortRefusal> {
    let open = at.saturating_add(1);
    if !draft.is(open, b"(") {
        return Err(draft.refuse(open, Reason::Statement));
    }
    Ok(Span {
        start: open.saturating_add(1),
        end: draft.partner(open),
    })
}

/// Puts a word with its open parenthesis into the line.
pub(crate) fn push_open(draft: &mut Draft, at: usize) -> Result<(), AllocError> {
    draft.push(at)?;
    draft.push(at.saturating_add(1))
}

/// Writes a word with its value in parentheses, and says where the body begins.
pub(crate) fn read_head(draft: &mut Draft, at: usize) -> Result<usize, PortRefusal> {
    let first = begin(draft, at);
    let inside = head_of(draft, at)?;
    let start = draft.line.len();
    push_open(draft, at)?;
    head_value(draft, inside)?;
    draft.push(inside.end)?;
    finish(draft, first, start)?;
    Ok(inside.end.saturating_add(1))
}

/// The head of a `while`: where its body begins, and the part of the line that stands before the statements of that.
#[derive(Clone, Copy)]
pub(crate) struct WhileHead {
    pub(crate) body: usize,
    pub(crate) front: Span,
}

/// Writes the head of a `while`. Where something comes before its test, that goes to the front of the body.
pub(crate) fn while_head(draft: &mut Draft, at: usize) -> Result<WhileHead, PortRefusal> {
    let first = begin(draft, at);
    let inside = head_of(draft, at)?;
    let body = inside.end.saturating_add(1);
    draft.indent = inner_indent(draft, body);
    let start = draft.line.len();
    push_open(draft, at)?;
    let test = draft.line.len();
    head_value(draft, inside)?;
    if draft.before.is_empty() {
        draft.push(inside.end)?;
        finish(draft, first, start)?;
        return Ok(WhileHead { body, front: NONE });
    }
    let front = leaving(draft, test)?;
    push_open(draft, at)?;
    draft.push_close(b"true")?;
    draft.push(inside.end)?;
    finish(draft, first, front.end)?;
    Ok(WhileHead { body, front })
}

/// Writes the head of a loop over ranges or lanes, and says where its body begins.
pub(crate) fn foreach_head(draft: &mut Draft, at: usize) -> Result<usize, PortRefusal> {
    let first = begin(draft, at);
    let inside = head_of(draft, at)?;
    let start = draft.line.len();
    push_open(draft, at)?;
    if is_range(draft, at) {
        push_dimensions(draft, inside)?;
    } else {
        push_lanes(draft, inside)?;
    }
    draft.push(inside.end)?;
    finish(draft, first, start)?;
    declare_indices(draft, at, inside)?;
    Ok(inside.end.saturating_add(1))
}

fn is_range(draft: &Draft, at: usize) -> bool {
    is_one_of(draft.text(at), &[b"foreach", b"foreach_tiled"])
}

/// Declares the indices of a loop over a range or over lanes.
fn declare_indices(draft: &mut Draft, at: usize, inside: Span) -> Result<(), AllocError> {
    let is_range = is_range(draft, at);
    let body = index_type(draft, at)?;
    let mut is_name = true;
    for index in inside.start..inside.end {
        if is_name && draft.is_word(index) {
            let name = draft.token(index).text;
            draft.names.push(Known::plain(name, body))?;
        }
        is_name = is_range && draft.is(index, b",");
    }
    Ok(())
}

/// The type of the indices of a loop.
fn index_type(draft: &mut Draft, at: usize) -> Result<Span, AllocError> {
    if is_range(draft, at) {
        return draft.keep_words(&[b"int"]);
    }
    if draft.is(at, b"foreach_active") {
        return draft.keep_words(&[b"uniform", b"int64"]);
    }
    draft.keep_words(&[b"uniform"])
}
