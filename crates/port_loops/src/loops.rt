//! The recursion over statements.
use crate::bodies::{Around, NOTHING_AROUND, begin_body, end_body, is_block};
use crate::dispatch::{Form, form_at, read_leaf};
use crate::do_loops::{do_head, do_tail};
use crate::for_heads::{end_for, read_for_head};
use crate::heads::{foreach_head, read_head, while_head};
use crate::labels::{is_label, read_label};
use port_draft::Draft;
use port_statements::{begin, enclose_from, leave_room};
use port_tokens::{NONE, PortRefusal, Reason, Span};

/// Reads the statement that begins there, and says where what is next stands.
#[cycle(statement)]
fn statement(draft: &mut Draft, at: usize, depth: u32) -> Result<usize, PortRefusal> {
    if depth == 0 {
        return Err(draft.refuse(at, Reason::TooDeep));
    }
    let inner = depth - 1;
    let form = form_at(draft, at);
    match form {
        Form::Block => block(draft, at, NONE, inner),
        Form::If => read_if(draft, at, inner),
        Form::While => read_while(draft, at, inner),
        Form::Do => read_do(draft, at, inner),
        Form::For => read_for(draft, at, inner),
        Form::Switch => read_switch(draft, at, inner),
        Form::Foreach => read_foreach(draft, at, inner),
        Form::Leaving | Form::Return | Form::Empty | Form::Other => read_leaf(draft, at, form),
    }
}

/// Reads a block, writes a part of the line at its front, and says where what is next stands.
///
/// # Errors
///
/// What is not ported, and where; or out of memory.
#[cycle(statement)]
pub fn block(draft: &mut Draft, at: usize, front: Span, depth: u32) -> Result<usize, PortRefusal> {
    if depth == 0 {
        return Err(draft.refuse(at, Reason::TooDeep));
    }
    let close = draft.partner(at);
    let (count, names) = (draft.statements, draft.names.len());
    draft.copy(at)?;
    draft.put_line(front)?;
    let mut next = at.saturating_add(1);
    for _ in at..close {
        if next >= close {
            break;
        }
        next = statement(draft, next, depth - 1)?;
    }
    if next != close {
        return Err(draft.refuse(close, Reason::Statement));
    }
    draft.copy(close)?;
    draft.names.truncate(names);
    draft.statements = count.saturating_add(1);
    Ok(close.saturating_add(1))
}

/// Reads a body, and writes parts of the line before and behind it.
#[cycle(statement)]
fn read_body(
    draft: &mut Draft,
    at: usize,
    around: Around,
    depth: u32,
) -> Result<usize, PortRefusal> {
    if depth == 0 {
        return Err(draft.refuse(at, Reason::TooDeep));
    }
    if is_block(draft, at, around) {
        let count = draft.statements;
        let next = block(draft, at, around.front, depth - 1)?;
        draft.statements = count;
        return Ok(next);
    }
    let body = begin_body(draft, at, around)?;
    let next = statement(draft, at, depth - 1)?;
    end_body(draft, body, around)?;
    Ok(next)
}

#[cycle(statement)]
fn read_if(draft: &mut Draft, at: usize, depth: u32) -> Result<usize, PortRefusal> {
    if depth == 0 {
        return Err(draft.refuse(at, Reason::TooDeep));
    }
    let inner = depth - 1;
    let body = read_head(draft, at)?;
    let next = read_body(draft, body, NOTHING_AROUND, inner)?;
    if !draft.is(next, b"else") {
        return Ok(next);
    }
    draft.copy(next)?;
    read_body(draft, next.saturating_add(1), NOTHING_AROUND, inner)
}

#[cycle(statement)]
fn read_while(draft: &mut Draft, at: usize, depth: u32) -> Result<usize, PortRefusal> {
    if depth == 0 {
        return Err(draft.refuse(at, Reason::TooDeep));
    }
    let start = draft.line.len();
    let head = while_head(draft, at)?;
    let around = Around {
        front: head.front,
        back: NONE,
    };
    let next = read_body(draft, head.body, around, depth - 1)?;
    draft.line.truncate(start);
    Ok(next)
}

#[cycle(statement)]
fn read_do(draft: &mut Draft, at: usize, depth: u32) -> Result<usize, PortRefusal> {
    if depth == 0 {
        return Err(draft.refuse(at, Reason::TooDeep));
    }
    let head = do_head(draft, at)?;
    let body = at.saturating_add(1);
    let next = read_body(draft, body, NOTHING_AROUND, depth - 1)?;
    do_tail(draft, head, body, next)
}

#[cycle(statement)]
fn read_for(draft: &mut Draft, at: usize, depth: u32) -> Result<usize, PortRefusal> {
    if depth == 0 {
        return Err(draft.refuse(at, Reason::TooDeep));
    }
    let (names, line) = (draft.names.len(), draft.line.len());
    let head = read_for_head(draft, at)?;
    let start = draft.written.len();
    let next = read_body(draft, head.body, head.around, depth - 1)?;
    end_for(draft, &head, start)?;
    draft.names.truncate(names);
    draft.line.truncate(line);
    Ok(next)
}

#[cycle(statement)]
fn read_foreach(draft: &mut Draft, at: usize, depth: u32) -> Result<usize, PortRefusal> {
    if depth == 0 {
        return Err(draft.refuse(at, Reason::TooDeep));
    }
    let names = draft.names.len();
    let body = foreach_head(draft, at)?;
    let next = read_body(draft, body, NOTHING_AROUND, depth - 1)?;
    draft.names.truncate(names);
    Ok(next)
}

#[cycle(statement)]
fn read_switch(draft: &mut Draft, at: usize, depth: u32) -> Result<usize, PortRefusal> {
    if depth == 0 {
        return Err(draft.refuse(at, Reason::TooDeep));
    }
    let inner = depth - 1;
    let names = draft.names.len();
    let open = read_head(draft, at)?;
    if !draft.is(open, b"{") {
        return Err(draft.refuse(open, Reason::Statement));
    }
    let close = draft.partner(open);
    draft.copy(open)?;
    let mut next = open.saturating_add(1);
    for _ in open..close {
        if next >= close {
            break;
        }
        next = if is_label(draft, next) {
            read_label(draft, next)?
        } else if draft.is_spec(next) {
            read_group(draft, next, close, inner)?
        } else {
            read_body(draft, next, NOTHING_AROUND, inner)?
        };
    }
    if next != close {
        return Err(draft.refuse(close, Reason::Statement));
    }
    draft.copy(close)?;
    draft.names.truncate(names);
    Ok(close.saturating_add(1))
}

/// Reads the statements from a declaration behind a label on, up to the next label, and encloses them in braces.
#[cycle(statement)]
fn read_group(
    draft: &mut Draft,
    at: usize,
    close: usize,
    depth: u32,
) -> Result<usize, PortRefusal> {
    if depth == 0 {
        return Err(draft.refuse(at, Reason::TooDeep));
    }
    let names = draft.names.len();
    let room = leave_room(draft)?;
    begin(draft, at);
    let indent = draft.indent;
    let mut next = at;
    for _ in at..close {
        if next >= close || is_label(draft, next) {
            break;
        }
        next = statement(draft, next, depth - 1)?;
    }
    enclose_from(draft, room, indent)?;
    draft.names.truncate(names);
    Ok(next)
}
