//! Arrays: their sizes, and how they are declared.
use crate::constants::constant;
use port_draft::{Draft, Shape};
use port_tokens::{Kind, NONE, PortRefusal, Reason, Span, Token, is_one_of};
use std::alloc::AllocError;

/// The most elements of an array.
const MOST_ELEMENTS: i64 = 1_048_576;

/// An array: how many elements it has, how many of them a row has if it has two dimensions, else 0, whose it is, and the
/// part between the braces of its values.
#[derive(Clone, Copy)]
pub struct Form {
    pub elements: i64,
    pub columns: i64,
    pub shape: Shape,
    pub values: Span,
}

impl Form {
    /// How many elements of the file it takes: sixteen times as many where each lane has a column.
    fn size(&self) -> i64 {
        match self.shape {
            Shape::Plain => self.elements,
            Shape::Column => self.elements.saturating_mul(16),
        }
    }
}

/// The form of an array of this type, whose name stands first in a part.
///
/// # Errors
///
/// A size or an initialiser that is not read; or out of memory.
pub fn array_form(draft: &Draft, body: Span, part: Span) -> Result<Form, PortRefusal> {
    let open = part.start.saturating_add(1);
    let close = draft.partner(open);
    let second = close.saturating_add(1);
    let has_two = second < part.end && draft.is(second, b"[");
    let last = if has_two {
        draft.partner(second)
    } else {
        close
    };
    let values = values_of(draft, last.saturating_add(1), part.end)?;
    let columns = if has_two {
        size(draft, inside(second, last))?
    } else {
        0
    };
    let rows = rows_of(draft, inside(open, close), values)?;
    let form = Form {
        elements: rows.saturating_mul(columns.max(1)),
        columns,
        shape: shape_of(draft, body),
        values,
    };
    if form.size() > MOST_ELEMENTS {
        return Err(draft.refuse(open, Reason::Size));
    }
    Ok(form)
}

/// What stands between two brackets.
fn inside(open: usize, close: usize) -> Span {
    Span {
        start: open.saturating_add(1),
        end: close,
    }
}

fn shape_of(draft: &Draft, body: Span) -> Shape {
    if draft.body_has(body, b"uniform") {
        Shape::Plain
    } else {
        Shape::Column
    }
}

/// How many rows an array has: its first size, or as many as it has values.
fn rows_of(draft: &Draft, part: Span, values: Span) -> Result<i64, PortRefusal> {
    if part.start < part.end {
        return size(draft, part);
    }
    let count = count_values(draft, values);
    if count == 0 {
        let open = part.start.saturating_sub(1);
        return Err(draft.refuse(open, Reason::Size));
    }
    Ok(count)
}

/// A size of an array.
fn size(draft: &Draft, part: Span) -> Result<i64, PortRefusal> {
    let size = constant(draft, part)?;
    if size < 1 || size > MOST_ELEMENTS {
        return Err(draft.refuse(part.start, Reason::Size));
    }
    Ok(size)
}

/// The part between the braces of an array's values, no part if there are none.
fn values_of(draft: &Draft, sign: usize, end: usize) -> Result<Span, PortRefusal> {
    if sign >= end {
        return Ok(NONE);
    }
    if !draft.is(sign, b"=") {
        return Err(draft.refuse(sign, Reason::Declaration));
    }
    let open = sign.saturating_add(1);
    let close = draft.partner(open);
    if !draft.is(open, b"{") || close.saturating_add(1) != end {
        return Err(draft.refuse(open, Reason::Initialiser));
    }
    Ok(inside(open, close))
}

/// How many values stand in a part.
fn count_values(draft: &Draft, part: Span) -> i64 {
    let mut count = 0i64;
    let mut start = part.start;
    for _ in part.start..part.end {
        if start >= part.end {
            break;
        }
        count = count.saturating_add(1);
        let rest = Span {
            start,
            end: part.end,
        };
        start = draft.end_at(rest, b",").saturating_add(1);
    }
    count
}

/// Puts the declaration of an array of the file into the line.
pub fn push_array(
    draft: &mut Draft,
    body: Span,
    name: Token,
    form: &Form,
) -> Result<(), AllocError> {
    draft.push_text(b"uniform")?;
    push_words(draft, body)?;
    let before = draft.blank;
    draft.line.push(Token { before, ..name })?;
    draft.push_close(b"[")?;
    let count = draft.number(form.size(), 0)?;
    draft.line.push(Token {
        before: NONE,
        ..count
    })?;
    draft.push_close(b"]")
}

/// Puts the words of a type into the line, but who has it.
fn push_words(draft: &mut Draft, body: Span) -> Result<(), AllocError> {
    for number in body.start..body.end {
        let token = draft.bodies.token(number);
        if !is_one_of(draft.pool.text(token.text), &[b"uniform", b"varying"]) {
            draft.line.push(token)?;
        }
    }
    Ok(())
}

/// Puts a declaration before the function, which the line has from there on.
pub fn put_array(draft: &mut Draft, start: usize) -> Result<(), AllocError> {
    let indent = draft.pool.add(b"\n")?;
    let end = draft.made(b";", Kind::Mark, 0)?;
    let part = draft.line_from(start);
    draft.arrays.append(indent, draft.line.part(part))?;
    draft.arrays.push(Token {
        before: NONE,
        ..end
    })?;
    draft.line.truncate(start);
    Ok(())
}
