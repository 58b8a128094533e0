//! Declarations within functions.
use crate::arms::choose;
use crate::lines::{begin, end_of, ending, finish, further, write_left};
use crate::specs::{Spec, spec_of};
use crate::statements::push_value;
use port_arrays::{
    array_form, constant, is_unsigned_type, push_array, push_folded, push_values, put_array,
};
use port_draft::{Draft, Known};
use port_tokens::{NONE, PortRefusal, Reason, Span, Token};
use std::alloc::AllocError;

/// Types of which no constant is read.
const NARROW: &[&[u8]] = &[b"int8", b"int16", b"uint8", b"uint16", b"bool"];

/// Reads a declaration, and says where what is next stands. Each name gets a declaration of its own.
///
/// # Errors
///
/// What is not ported, and where; or out of memory.
pub fn declaration(draft: &mut Draft, at: usize) -> Result<usize, PortRefusal> {
    let mut first = begin(draft, at);
    let spec = spec_of(draft, at)?;
    let end = end_of(draft, at)?;
    let mut rest = Span {
        start: spec.words.end,
        end,
    };
    for _ in at..end {
        let stop = draft.end_at(rest, b",");
        let part = Span {
            start: rest.start,
            end: stop,
        };
        declarator(draft, first, spec, part)?;
        if stop >= end {
            break;
        }
        rest.start = stop.saturating_add(1);
        first = further(draft, rest.start);
    }
    Ok(end.saturating_add(1))
}

/// Reads a name of a declaration with its value.
fn declarator(draft: &mut Draft, first: Span, spec: Spec, part: Span) -> Result<(), PortRefusal> {
    if is_array(draft, part)? {
        return local_array(draft, first, spec, part);
    }
    if spec.is_static && !spec.is_constant {
        return static_variable(draft, first, spec, part);
    }
    let right = value_part(part);
    draft.region = right;
    draft.is_late = false;
    if right.start <= right.end && draft.has_full_arms(right) {
        chosen(draft, first, spec, part.start, right)?;
    } else {
        declared(draft, first, spec, part)?;
    }
    declare_value(draft, spec, part)
}

/// Whether a name of a declaration is an array; refuses one behind which no value begins.
pub fn is_array(draft: &Draft, part: Span) -> Result<bool, PortRefusal> {
    let sign = part.start.saturating_add(1);
    if !draft.is_word(part.start) {
        return Err(draft.refuse(part.start, Reason::Declaration));
    }
    if sign >= part.end {
        return Ok(false);
    }
    if draft.is(sign, b"[") {
        return Ok(true);
    }
    if draft.is(sign, b"=") {
        Ok(false)
    } else {
        Err(draft.refuse(sign, Reason::Declaration))
    }
}

/// What stands behind the sign of a name of a declaration; it begins behind its end, if there is no sign.
pub fn value_part(part: Span) -> Span {
    Span {
        start: part.start.saturating_add(2),
        end: part.end,
    }
}

/// Adds a variable to those in scope, with its value if it is a constant.
pub fn declare_value(draft: &mut Draft, spec: Spec, part: Span) -> Result<(), PortRefusal> {
    let value = constant_value(draft, spec, part)?;
    let name = draft.token(part.start).text;
    Ok(
        draft.names.push(Known {
            value,
            ..Known::plain(name, spec.body)
        })?,
    )
}

/// Writes a variable with its value.
fn declared(draft: &mut Draft, first: Span, spec: Spec, part: Span) -> Result<(), PortRefusal> {
    let start = draft.line.len();
    push_words(draft, spec, true)?;
    push_name(draft, spec, part.start)?;
    let sign = part.start.saturating_add(1);
    if sign < part.end {
        draft.push(sign)?;
        push_value(draft, value_part(part), true)?;
    }
    ending(draft, part.end)?;
    Ok(finish(draft, first, start)?)
}

/// Puts the words of a declaration into the line, without `static` where it is left out.
pub fn push_words(draft: &mut Draft, spec: Spec, is_local: bool) -> Result<(), AllocError> {
    for at in spec.words.start..spec.words.end {
        if is_local && draft.is(at, b"static") {
            continue;
        }
        draft.push(at)?;
    }
    Ok(())
}

/// Puts a name of a declaration into the line: behind its own blanks, or one blank if others stand before it.
pub fn push_name(draft: &mut Draft, spec: Spec, name: usize) -> Result<(), AllocError> {
    let token = draft.token(name);
    let before = if name == spec.words.end {
        token.before
    } else {
        draft.blank
    };
    draft.line.push(Token { before, ..token })
}

/// Declares a variable, and gives it the value of `?:` by `if` and `else`. So it is constant no more.
fn chosen(
    draft: &mut Draft,
    first: Span,
    spec: Spec,
    name: usize,
    right: Span,
) -> Result<(), PortRefusal> {
    let start = draft.line.len();
    let token = draft.token(name);
    let before = draft.blank;
    draft.push_body(spec.body)?;
    draft.line.push(Token { before, ..token })?;
    draft.push_close(b";")?;
    finish(draft, first, start)?;
    draft.line.push(token)?;
    draft.push_text(b"=")?;
    let indent = draft.indent;
    choose(draft, indent, start, right)
}

/// The value of a constant that is no narrower than 32 bits, if it is read.
fn constant_value(draft: &Draft, spec: Spec, part: Span) -> Result<Option<i64>, PortRefusal> {
    let right = value_part(part);
    if !spec.is_constant || right.start >= right.end || draft.body_has_one(spec.body, NARROW) {
        return Ok(None);
    }
    match constant(draft, right) {
        Ok(value) if value < 0 && is_unsigned_type(draft, spec.body) => Ok(None),
        Ok(value) => Ok(Some(value)),
        Err(PortRefusal::Memory) => Err(PortRefusal::Memory),
        Err(PortRefusal::Source(_)) => Ok(None),
    }
}

/// Declares a variable of the file for one that is static.
fn static_variable(
    draft: &mut Draft,
    first: Span,
    spec: Spec,
    part: Span,
) -> Result<(), PortRefusal> {
    let token = draft.token(part.start);
    let name = draft.fresh(token.text)?;
    let start = draft.line.len();
    draft.push_body(spec.body)?;
    draft.line.push(name)?;
    let sign = part.start.saturating_add(1);
    if sign < part.end {
        draft.push(sign)?;
        push_folded(draft, value_part(part))?;
    }
    put_array(draft, start)?;
    write_left(draft, first)?;
    Ok(
        draft.names.push(Known {
            written: name.text,
            ..Known::plain(token.text, spec.body)
        })?,
    )
}

/// Declares an array of the file for one of a function, and writes what gives it its values.
fn local_array(draft: &mut Draft, first: Span, spec: Spec, part: Span) -> Result<(), PortRefusal> {
    if draft.is_recursive && !spec.is_static {
        return Err(draft.refuse(part.start, Reason::Recursion));
    }
    let token = draft.token(part.start);
    let name = draft.fresh(token.text)?;
    let form = array_form(draft, spec.body, part)?;
    let start = draft.line.len();
    push_array(draft, spec.body, name, &form)?;
    put_array(draft, start)?;
    write_left(draft, first)?;
    draft.names.push(Known {
        written: name.text,
        shape: form.shape,
        columns: form.columns,
        ..Known::plain(token.text, spec.body)
    })?;
    if form.values == NONE {
        return Ok(());
    }
    push_values(draft, name, &form)?;
    let lines = draft.line_from(start);
    draft.put_line(lines)?;
    draft.line.truncate(start);
    draft.statements = draft.statements.saturating_add(2);
    Ok(())
}
