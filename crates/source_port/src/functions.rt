//! Functions with their parameters.
use port_draft::{DEPTH, Draft, Known};
use port_loops::block;
use port_statements::{Spec, begin, spec_of};
use port_tokens::{Kind, PortRefusal, Reason, Span, Token};
use std::alloc::AllocError;

/// Reads a function whose body begins there, and says where what is next stands.
pub(crate) fn function(draft: &mut Draft, spec: Spec, brace: usize) -> Result<usize, PortRefusal> {
    let (names, room) = (draft.names.len(), draft.written.len());
    draft.is_recursive = draft.may_call_itself(brace.saturating_add(1))?;
    write_head(draft, spec)?;
    let start = draft.line.len();
    if draft.has_word(spec.words, b"export") {
        push_filling(draft, brace)?;
    }
    let front = draft.line_from(start);
    let next = block(draft, brace, front, DEPTH)?;
    draft.line.truncate(start);
    put_arrays(draft, room)?;
    draft.names.truncate(names);
    Ok(next)
}

/// Writes what stands before the body of a function.
fn write_head(draft: &mut Draft, spec: Spec) -> Result<(), PortRefusal> {
    let open = spec.words.end.saturating_add(1);
    copy_part(draft, spec.words.start, open)?;
    let close = draft.partner(open);
    let part = Span {
        start: open.saturating_add(1),
        end: close,
    };
    parameters(draft, part)?;
    Ok(draft.copy(close)?)
}

/// Writes the tokens from one up to another.
fn copy_part(draft: &mut Draft, start: usize, last: usize) -> Result<(), AllocError> {
    for at in start..last.saturating_add(1) {
        draft.copy(at)?;
    }
    Ok(())
}

/// Puts a call of what fills the tables into the line, if there are some, to stand in front of the statements behind a brace.
fn push_filling(draft: &mut Draft, brace: usize) -> Result<(), AllocError> {
    let Some(text) = draft.filling else {
        return Ok(());
    };
    begin(draft, brace.saturating_add(1));
    draft.line.push(Token {
        before: draft.indent,
        text,
        at: 0,
        kind: Kind::Word,
    })?;
    draft.push_close(b"();")
}

/// Writes the arrays of a function before it, which is written from there on.
fn put_arrays(draft: &mut Draft, room: usize) -> Result<(), AllocError> {
    let start = draft.line.len();
    draft.take_written(room)?;
    let all = Span {
        start: 0,
        end: draft.arrays.len(),
    };
    draft.written.extend(draft.arrays.part(all))?;
    draft.arrays.truncate(0);
    let own = draft.line_from(start);
    draft.put_line(own)?;
    draft.line.truncate(start);
    Ok(())
}

/// Reads the parameters of a function.
fn parameters(draft: &mut Draft, part: Span) -> Result<(), PortRefusal> {
    let mut rest = part;
    for _ in part.start..part.end {
        let end = draft.end_at(rest, b",");
        let one = Span {
            start: rest.start,
            end,
        };
        parameter(draft, one)?;
        if end >= part.end {
            break;
        }
        draft.copy(end)?;
        rest.start = end.saturating_add(1);
    }
    Ok(())
}

/// Reads a parameter. An array has no size here.
fn parameter(draft: &mut Draft, part: Span) -> Result<(), PortRefusal> {
    if draft.is(part.start, b"void") && part.start.saturating_add(1) == part.end {
        return Ok(draft.copy(part.start)?);
    }
    if !draft.is_spec(part.start) {
        return Err(draft.refuse(part.start, Reason::Type));
    }
    let spec = spec_of(draft, part.start)?;
    let name = spec.words.end;
    let last = parameter_end(draft, name, part.end);
    if last.saturating_add(1) != part.end {
        return Err(draft.refuse(last.saturating_add(1), Reason::Parameter));
    }
    copy_part(draft, part.start, name)?;
    if last > name {
        draft.copy(name.saturating_add(1))?;
        draft.copy(last)?;
    }
    let text = draft.token(name).text;
    Ok(draft.names.push(Known::plain(text, spec.body))?)
}

/// Where the last token of a parameter stands: its name, or the bracket that is closed behind it.
fn parameter_end(draft: &Draft, name: usize, end: usize) -> usize {
    let open = name.saturating_add(1);
    if open < end && draft.is(open, b"[") {
        draft.partner(open)
    } else {
        name
    }
}
