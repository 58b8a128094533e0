//! Statements that are simple, and those that leave a function or a loop.
use crate::arms::choose;
use crate::lines::{begin, end_of, ending, finish, further};
use port_draft::{DEPTH, Draft};
use port_expressions::{call, expression, target};
use port_tokens::{PortRefusal, Reason, Span};

/// Reads statements between commas up to a `;`, and says where what is next stands.
///
/// # Errors
///
/// What is not ported, and where; or out of memory.
pub fn simple(draft: &mut Draft, at: usize) -> Result<usize, PortRefusal> {
    let first = begin(draft, at);
    let end = end_of(draft, at)?;
    simple_parts(draft, first, Span { start: at, end })?;
    Ok(end.saturating_add(1))
}

/// Reads statements between commas.
///
/// # Errors
///
/// What is not ported, and where; or out of memory.
pub fn simple_parts(draft: &mut Draft, first: Span, part: Span) -> Result<(), PortRefusal> {
    let mut rest = part;
    let mut before = first;
    for _ in part.start..part.end {
        let end = draft.end_at(rest, b",");
        let one = Span {
            start: rest.start,
            end,
        };
        simple_part(draft, before, one)?;
        if end >= part.end {
            break;
        }
        rest.start = end.saturating_add(1);
        before = further(draft, rest.start);
    }
    Ok(())
}

/// Reads an assignment, a change or a call.
fn simple_part(draft: &mut Draft, first: Span, part: Span) -> Result<(), PortRefusal> {
    draft.region = part;
    draft.is_late = !draft.has_held_call(part);
    let start = draft.line.len();
    if let Some(sign) = draft.find_assignment(part) {
        return assignment(draft, first, part, sign);
    }
    change_or_call(draft, part)?;
    end_statement(draft, first, part.end, start)
}

/// Ends the statement that the line has from there on in the place of the mark there, and writes it.
fn end_statement(
    draft: &mut Draft,
    first: Span,
    at: usize,
    start: usize,
) -> Result<(), PortRefusal> {
    ending(draft, at)?;
    Ok(finish(draft, first, start)?)
}

/// Reads an assignment.
fn assignment(draft: &mut Draft, first: Span, part: Span, sign: usize) -> Result<(), PortRefusal> {
    let left = Span {
        start: part.start,
        end: sign,
    };
    let right = Span {
        start: sign.saturating_add(1),
        end: part.end,
    };
    let start = draft.line.len();
    whole_target(draft, left)?;
    let may_hold = draft.may_hold(sign, draft.line_from(start));
    draft.push(sign)?;
    if may_hold && draft.has_full_arms(right) {
        return choose(draft, first, start, right);
    }
    push_value(draft, right, may_hold)?;
    end_statement(draft, first, part.end, start)
}

/// Puts a value into the line, which may be a call as a whole.
pub(crate) fn push_value(draft: &mut Draft, part: Span, may_hold: bool) -> Result<(), PortRefusal> {
    if may_hold && draft.is_whole_call(part) {
        call(draft, part.start, DEPTH)
    } else {
        expression(draft, part, DEPTH)
    }
}

/// Puts a change by `++` or `--`, or a call, into the line.
fn change_or_call(draft: &mut Draft, part: Span) -> Result<(), PortRefusal> {
    let last = part.end.saturating_sub(1);
    let next = part.start.saturating_add(1);
    if draft.is_change(part.start) {
        draft.push(part.start)?;
        return whole_target(
            draft,
            Span {
                start: next,
                end: part.end,
            },
        );
    }
    if part.start < last && draft.is_change(last) {
        let target = Span {
            start: part.start,
            end: last,
        };
        whole_target(draft, target)?;
        return Ok(draft.push(last)?);
    }
    if draft.is_call(part.start) && draft.partner(next) == last {
        call(draft, part.start, DEPTH)
    } else {
        Err(draft.refuse(part.start, Reason::Statement))
    }
}

/// Puts a variable or an element, and nothing besides, into the line.
fn whole_target(draft: &mut Draft, part: Span) -> Result<(), PortRefusal> {
    if draft.is_word(part.start) && draft.target_end(part.start) == part.end {
        target(draft, part, DEPTH)
    } else {
        Err(draft.refuse(part.start, Reason::Statement))
    }
}

/// Reads `return`, and says where what is next stands.
///
/// # Errors
///
/// What is not ported, and where; or out of memory.
pub fn read_return(draft: &mut Draft, at: usize) -> Result<usize, PortRefusal> {
    let first = begin(draft, at);
    let end = end_of(draft, at)?;
    let part = Span {
        start: at.saturating_add(1),
        end,
    };
    draft.region = part;
    let start = draft.line.len();
    draft.push(at)?;
    if draft.has_full_arms(part) && draft.find_assignment(part).is_none() {
        choose(draft, first, start, part)?;
    } else {
        push_value(draft, part, true)?;
        draft.push(end)?;
        finish(draft, first, start)?;
    }
    Ok(end.saturating_add(1))
}

/// Writes `break` or `continue`, and says where what is next stands.
///
/// # Errors
///
/// No `;` follows; or out of memory.
pub fn read_leaving(draft: &mut Draft, at: usize) -> Result<usize, PortRefusal> {
    let end = at.saturating_add(1);
    if !draft.is(end, b";") {
        return Err(draft.refuse(end, Reason::Statement));
    }
    let start = draft.line.len();
    draft.push(at)?;
    draft.push(end)?;
    let first = begin(draft, at);
    finish(draft, first, start)?;
    Ok(end.saturating_add(1))
}
