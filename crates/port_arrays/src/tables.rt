//! Statements that give arrays their values.
use crate::arrays::Form;
use port_draft::{DEPTH, Draft, Shape};
use port_expressions::{expression, put_lane};
use port_tokens::{NONE, PortRefusal, Reason, Span, Token};
use std::alloc::AllocError;

/// Puts statements into the line that give an array its values, and 0 to its other elements.
///
/// # Errors
///
/// Values that are not read; or out of memory.
pub fn push_values(draft: &mut Draft, name: Token, form: &Form) -> Result<(), PortRefusal> {
    let most = count_of(form);
    let mut count = 0i64;
    let mut rest = form.values;
    for _ in form.values.start..form.values.end {
        if rest.start >= rest.end {
            break;
        }
        let part = Span {
            start: rest.start,
            end: draft.end_at(rest, b","),
        };
        if count >= most {
            return Err(draft.refuse(part.start, Reason::Initialiser));
        }
        push_value(draft, name, form, count, part)?;
        count = count.saturating_add(1);
        rest.start = part.end.saturating_add(1);
    }
    let filled = count.saturating_mul(form.columns.max(1));
    Ok(push_zeros(draft, name, form, filled)?)
}

/// How many values an array has at most: rows, or elements.
fn count_of(form: &Form) -> i64 {
    if form.columns > 0 {
        match form.elements.checked_div(form.columns) {
            Some(rows) => rows,
            None => 0,
        }
    } else {
        form.elements
    }
}

/// Puts statements for a row or an element into the line.
fn push_value(
    draft: &mut Draft,
    name: Token,
    form: &Form,
    number: i64,
    part: Span,
) -> Result<(), PortRefusal> {
    if form.columns > 0 {
        push_row(draft, name, form, number, part)
    } else {
        push_element(draft, name, form.shape, number, part)
    }
}

/// Puts statements for the values of a row into the line, and 0 for its other elements.
fn push_row(
    draft: &mut Draft,
    name: Token,
    form: &Form,
    row: i64,
    part: Span,
) -> Result<(), PortRefusal> {
    let close = draft.partner(part.start);
    if !draft.is(part.start, b"{") || close.saturating_add(1) != part.end {
        return Err(draft.refuse(part.start, Reason::Initialiser));
    }
    let front = row.saturating_mul(form.columns);
    let mut count = 0i64;
    let mut rest = Span {
        start: part.start.saturating_add(1),
        end: close,
    };
    for _ in part.start..close {
        if rest.start >= close {
            break;
        }
        let value = Span {
            start: rest.start,
            end: draft.end_at(rest, b","),
        };
        if count >= form.columns {
            return Err(draft.refuse(value.start, Reason::Initialiser));
        }
        let number = front.saturating_add(count);
        push_element(draft, name, form.shape, number, value)?;
        count = count.saturating_add(1);
        rest.start = value.end.saturating_add(1);
    }
    let row = Form {
        elements: front.saturating_add(form.columns),
        ..*form
    };
    Ok(push_zeros(draft, name, &row, front.saturating_add(count))?)
}

/// Puts a statement into the line that gives an element its value.
fn push_element(
    draft: &mut Draft,
    name: Token,
    shape: Shape,
    number: i64,
    part: Span,
) -> Result<(), PortRefusal> {
    if draft.is(part.start, b"{") {
        return Err(draft.refuse(part.start, Reason::Initialiser));
    }
    if let Some(at) = draft.effect(part) {
        return Err(draft.refuse(at, Reason::Initialiser));
    }
    let index = draft.number(number, 0)?;
    push_store(draft, name, shape, index)?;
    let start = draft.line.len();
    expression(draft, part, DEPTH)?;
    draft.line.space(start, draft.blank);
    Ok(draft.push_close(b";")?)
}

/// Puts the front of a statement that stores a value into the line.
fn push_store(
    draft: &mut Draft,
    name: Token,
    shape: Shape,
    index: Token,
) -> Result<(), AllocError> {
    let before = draft.indent;
    draft.line.push(Token { before, ..name })?;
    draft.push_close(b"[")?;
    let start = draft.line.len();
    draft.line.push(Token {
        before: NONE,
        ..index
    })?;
    if shape == Shape::Column {
        put_lane(draft, start)?;
    }
    draft.push_close(b"]")?;
    draft.push_text(b"=")
}

/// Puts a loop into the line that stores 0 in the elements from one on.
fn push_zeros(draft: &mut Draft, name: Token, form: &Form, from: i64) -> Result<(), AllocError> {
    if from >= form.elements {
        return Ok(());
    }
    let stem = draft.pool.add(b"k")?;
    let counter = draft.fresh(stem)?;
    push_count(draft, counter, from, form.elements)?;
    let start = draft.line.len();
    push_store(draft, name, form.shape, counter)?;
    draft.line.space(start, draft.blank);
    draft.push_number(0)?;
    draft.push_close(b";")
}

/// Puts the head of a loop into the line that counts from one number up to another.
fn push_count(draft: &mut Draft, counter: Token, from: i64, to: i64) -> Result<(), AllocError> {
    let indent = draft.indent;
    draft.push_behind(indent, b"for (uniform int")?;
    draft.line.push(counter)?;
    draft.push_text(b"=")?;
    draft.push_number(from)?;
    draft.push_close(b";")?;
    draft.line.push(counter)?;
    draft.push_text(b"<")?;
    draft.push_number(to)?;
    draft.push_close(b";")?;
    draft.line.push(counter)?;
    draft.push_close(b"++)")
}
