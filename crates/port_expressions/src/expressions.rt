//! Expressions: each puts what is written for it into the line, in the order in which it is evaluated.
use crate::before::{
    leave_name, put_assignment, put_call, put_change, put_guard, put_guarded, put_truth,
};
use crate::elements::{check_whole, element_of, end_element, put_column, put_row};
use crate::forms::{
    Form, OperandForm, Sides, argument_end, check_assignment, check_changed, form_of, is_part,
    operand_of,
};
use port_draft::Draft;
use port_tokens::{PortRefusal, Reason, Span};

/// Puts an expression into the line.
///
/// # Errors
///
/// What is not ported, and where; or out of memory.
#[cycle(expression)]
pub fn expression(draft: &mut Draft, part: Span, depth: u32) -> Result<(), PortRefusal> {
    if depth == 0 {
        return Err(draft.refuse(part.start, Reason::TooDeep));
    }
    let inner = depth - 1;
    match form_of(draft, part)? {
        Form::Assignment(sign) => inner_assignment(draft, part, sign, inner),
        Form::Joined(sides) => joined(draft, part, sides, inner),
        Form::Guarded(sides) => guarded(draft, part, sides, inner),
        Form::Operands => joined_operands(draft, part, inner),
    }
}

/// An assignment within an expression: it comes before the statement, and its target is the value.
#[cycle(expression)]
fn inner_assignment(
    draft: &mut Draft,
    part: Span,
    sign: usize,
    depth: u32,
) -> Result<(), PortRefusal> {
    if depth == 0 {
        return Err(draft.refuse(part.start, Reason::TooDeep));
    }
    let inner = depth - 1;
    check_assignment(draft, part, sign)?;
    let start = draft.line.len();
    let left = Span {
        start: part.start,
        end: sign,
    };
    target(draft, left, inner)?;
    let written = draft.line_from(start);
    draft.push(sign)?;
    let right = Span {
        start: sign.saturating_add(1),
        end: part.end,
    };
    if draft.may_hold(sign, written) && draft.is_whole_call(right) {
        call(draft, right.start, inner)?;
    } else {
        expression(draft, right, inner)?;
    }
    Ok(put_assignment(draft, written)?)
}

/// The sides of these marks, each as it is written.
#[cycle(expression)]
fn joined(draft: &mut Draft, part: Span, sides: Sides, depth: u32) -> Result<(), PortRefusal> {
    if depth == 0 {
        return Err(draft.refuse(part.start, Reason::TooDeep));
    }
    let inner = depth - 1;
    let mut rest = part;
    for _ in part.start..part.end {
        let end = sides.end(draft, rest);
        let side = Span {
            start: rest.start,
            end,
        };
        expression(draft, side, inner)?;
        if end >= part.end {
            break;
        }
        draft.push(end)?;
        rest.start = end.saturating_add(1);
    }
    Ok(())
}

/// The sides of `&&` or `||` as a variable, which the lanes that need a side change by it.
#[cycle(expression)]
fn guarded(draft: &mut Draft, part: Span, sides: Sides, depth: u32) -> Result<(), PortRefusal> {
    if depth == 0 {
        return Err(draft.refuse(part.start, Reason::TooDeep));
    }
    let inner = depth - 1;
    let (region, is_late, start) = (draft.region, draft.is_late, draft.line.len());
    let mut side = Span {
        start: part.start,
        end: sides.end(draft, part),
    };
    expression(draft, side, inner)?;
    let name = put_truth(draft, part, start)?;
    draft.is_late = false;
    for _ in side.end..part.end {
        side.start = side.end.saturating_add(1);
        let rest = Span {
            start: side.start,
            end: part.end,
        };
        side.end = sides.end(draft, rest);
        draft.region = side;
        put_guard(draft, sides.guard(), name)?;
        expression(draft, side, inner)?;
        put_guarded(draft, name, start)?;
        if side.end >= part.end {
            break;
        }
    }
    draft.region = region;
    draft.is_late = is_late;
    Ok(leave_name(draft, start, name, part.start)?)
}

/// Operands with the operators between them.
#[cycle(expression)]
fn joined_operands(draft: &mut Draft, part: Span, depth: u32) -> Result<(), PortRefusal> {
    if depth == 0 {
        return Err(draft.refuse(part.start, Reason::TooDeep));
    }
    let mut next = part.start;
    for at in part.start..part.end {
        if at < next {
            continue;
        }
        next = operand(draft, at, part.end, depth - 1)?;
    }
    Ok(())
}

/// The operand or operator that begins there; says where it ends.
#[cycle(expression)]
fn operand(draft: &mut Draft, at: usize, end: usize, depth: u32) -> Result<usize, PortRefusal> {
    if depth == 0 {
        return Err(draft.refuse(at, Reason::TooDeep));
    }
    let inner = depth - 1;
    let found = operand_of(draft, at, end)?;
    match found.form {
        OperandForm::Change(sign) => changed(draft, found.part, sign, inner)?,
        OperandForm::Group => group(draft, found.part, inner)?,
        OperandForm::Call => call_value(draft, at, inner)?,
        OperandForm::Target => target(draft, found.part, inner)?,
        OperandForm::Alone => draft.push(at)?,
    }
    Ok(found.end)
}

/// What stands between parentheses, with them.
#[cycle(expression)]
fn group(draft: &mut Draft, part: Span, depth: u32) -> Result<(), PortRefusal> {
    if depth == 0 {
        return Err(draft.refuse(part.start, Reason::TooDeep));
    }
    draft.push(part.start)?;
    let inside = Span {
        start: part.start.saturating_add(1),
        end: part.end,
    };
    expression(draft, inside, depth - 1)?;
    Ok(draft.push(part.end)?)
}

/// The value of what `++` or `--` changes.
#[cycle(expression)]
fn changed(draft: &mut Draft, part: Span, sign: usize, depth: u32) -> Result<(), PortRefusal> {
    if depth == 0 || !draft.is_word(part.start) {
        return Err(draft.refuse(part.start, Reason::Word));
    }
    check_changed(draft, part)?;
    let (is_late, start) = (draft.is_late, draft.line.len());
    draft.is_late = is_late && !draft.has_effect(part);
    target(draft, part, depth - 1)?;
    draft.is_late = is_late;
    put_change(draft, part.start, sign, start)
}

/// The value of a call. One that gives its value only behind `=` comes before the statement.
#[cycle(expression)]
fn call_value(draft: &mut Draft, at: usize, depth: u32) -> Result<(), PortRefusal> {
    if depth == 0 {
        return Err(draft.refuse(at, Reason::TooDeep));
    }
    let start = draft.line.len();
    call(draft, at, depth - 1)?;
    if draft.is_held_call(at) {
        put_call(draft, at, start)
    } else {
        Ok(())
    }
}

/// Puts a call into the line as it is written.
///
/// # Errors
///
/// What is not ported, and where; or out of memory.
#[cycle(expression)]
pub fn call(draft: &mut Draft, at: usize, depth: u32) -> Result<(), PortRefusal> {
    if depth == 0 {
        return Err(draft.refuse(at, Reason::TooDeep));
    }
    let inner = depth - 1;
    if draft.is_unknown_call(at) {
        return Err(draft.refuse(at, Reason::Call));
    }
    let open = at.saturating_add(1);
    let close = draft.partner(open);
    draft.push(at)?;
    draft.push(open)?;
    let mut start = open.saturating_add(1);
    for _ in open..close {
        let end = argument_end(draft, at, Span { start, end: close })?;
        argument(draft, Span { start, end }, inner)?;
        if end >= close {
            break;
        }
        draft.push(end)?;
        start = end.saturating_add(1);
    }
    Ok(draft.push(close)?)
}

/// An argument: an expression, or a part of an array.
#[cycle(expression)]
fn argument(draft: &mut Draft, part: Span, depth: u32) -> Result<(), PortRefusal> {
    if depth == 0 {
        return Err(draft.refuse(part.start, Reason::TooDeep));
    }
    if !is_part(draft, part) {
        return expression(draft, part, depth - 1);
    }
    let rest = Span {
        start: part.start.saturating_add(1),
        end: part.end,
    };
    check_whole(draft, rest.start)?;
    draft.push(part.start)?;
    target(draft, rest, depth - 1)
}

/// Puts a variable or an element of an array into the line as it is written.
///
/// # Errors
///
/// What is not ported, and where; or out of memory.
#[cycle(expression)]
pub fn target(draft: &mut Draft, part: Span, depth: u32) -> Result<(), PortRefusal> {
    if depth == 0 {
        return Err(draft.refuse(part.start, Reason::TooDeep));
    }
    let inner = depth - 1;
    let name = draft.written_name(part.start);
    draft.line.push(name)?;
    let open = part.start.saturating_add(1);
    if open >= part.end {
        return check_whole(draft, part.start);
    }
    let element = element_of(draft, part);
    draft.push(open)?;
    let start = draft.line.len();
    expression(draft, element.index, inner)?;
    if element.has_two() {
        put_row(draft, start, element.columns)?;
        let column = draft.line.len();
        expression(draft, element.column, inner)?;
        put_column(draft, column)?;
    }
    end_element(draft, part, &element, start)
}
