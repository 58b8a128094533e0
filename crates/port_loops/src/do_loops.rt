//! What stands before and behind the body of a `do`.
use crate::heads::{head_of, push_open};
use port_draft::Draft;
use port_statements::{
    begin, enclose_from, finish, has_continue, head_value, inner_indent, leave_room, leaving, write,
};
use port_tokens::{Kind, PortRefusal, Reason, Span, Token};
use std::alloc::AllocError;

/// What was written before the body of a `do`: the blanks before it, where its word stands, and the room for a brace.
#[derive(Clone, Copy)]
pub(crate) struct DoHead {
    indent: Span,
    word: usize,
    room: usize,
}

/// Writes the word of a `do`.
pub(crate) fn do_head(draft: &mut Draft, at: usize) -> Result<DoHead, AllocError> {
    let first = begin(draft, at);
    let (indent, word) = (draft.indent, draft.written.len());
    let start = draft.line.len();
    draft.push(at)?;
    finish(draft, first, start)?;
    Ok(DoHead {
        indent,
        word,
        room: leave_room(draft)?,
    })
}

/// Writes the test of a `do` that stands there, and says where what is next does. What comes before the test goes to the end of the body.
pub(crate) fn do_tail(
    draft: &mut Draft,
    head: DoHead,
    body: usize,
    at: usize,
) -> Result<usize, PortRefusal> {
    if !draft.is(at, b"while") {
        return Err(draft.refuse(at, Reason::Statement));
    }
    draft.indent = head.indent;
    draft.indent = inner_indent(draft, body);
    let inside = head_of(draft, at)?;
    let start = draft.line.len();
    push_open(draft, at)?;
    let test = draft.line.len();
    head_value(draft, inside)?;
    let end = inside.end.saturating_add(1);
    if !draft.is(end, b";") {
        return Err(draft.refuse(end, Reason::Statement));
    }
    if draft.before.is_empty() {
        draft.push(inside.end)?;
        draft.push(end)?;
        let before = draft.token(at).before;
        write(draft, before, start)?;
    } else {
        leave_at_end(draft, head, at, test)?;
        draft.line.truncate(start);
    }
    Ok(end.saturating_add(1))
}

/// Writes a test as a statement at the end of the body, which the line has from there on, and `while (true)` for `do`.
fn leave_at_end(
    draft: &mut Draft,
    head: DoHead,
    at: usize,
    test: usize,
) -> Result<(), PortRefusal> {
    if has_continue(draft, head.room) {
        return Err(draft.refuse(at, Reason::TestAndContinue));
    }
    let back = leaving(draft, test)?;
    draft.put_line(back)?;
    enclose_from(draft, head.room, head.indent)?;
    let made = draft.made(b"while (true)", Kind::Word, 0)?;
    let word = draft.written.token(head.word);
    draft.written.replace(
        head.word,
        Token {
            text: made.text,
            ..word
        },
    );
    Ok(())
}
