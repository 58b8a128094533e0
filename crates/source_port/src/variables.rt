//! Variables and arrays of the file.
use port_arrays::{Form, array_form, push_array, push_folded, push_values};
use port_draft::{Draft, Known, Shape};
use port_statements::{
    Spec, declare_value, end_of, ending, further, is_array, push_name, push_words, value_part,
    write,
};
use port_tokens::{NONE, PortRefusal, Reason, Span};

/// Reads variables of the file, and says where what is next stands.
pub(crate) fn variables(
    draft: &mut Draft,
    first: Span,
    at: usize,
    spec: Spec,
) -> Result<usize, PortRefusal> {
    let end = end_of(draft, at)?;
    let mut before = first;
    let mut rest = Span {
        start: spec.words.end,
        end,
    };
    for _ in at..end {
        let stop = draft.end_at(rest, b",");
        let part = Span {
            start: rest.start,
            end: stop,
        };
        variable(draft, before, spec, part)?;
        if stop >= end {
            break;
        }
        rest.start = stop.saturating_add(1);
        before = further(draft, rest.start);
    }
    Ok(end.saturating_add(1))
}

/// Reads a variable of the file.
fn variable(draft: &mut Draft, first: Span, spec: Spec, part: Span) -> Result<(), PortRefusal> {
    if is_array(draft, part)? {
        return array(draft, first, spec, part);
    }
    let start = draft.line.len();
    push_words(draft, spec, false)?;
    push_name(draft, spec, part.start)?;
    let sign = part.start.saturating_add(1);
    if sign < part.end {
        draft.push(sign)?;
        push_folded(draft, value_part(part))?;
    }
    ending(draft, part.end)?;
    write(draft, first, start)?;
    declare_value(draft, spec, part)
}

/// Reads an array of the file.
fn array(draft: &mut Draft, first: Span, spec: Spec, part: Span) -> Result<(), PortRefusal> {
    let form = array_form(draft, spec.body, part)?;
    let has_values = form.values != NONE;
    if has_values && !spec.is_constant && calls_exported(draft) {
        return Err(draft.refuse(part.start, Reason::TableAndCall));
    }
    write_array(draft, first, spec, part, &form)?;
    let name = draft.token(part.start).text;
    draft.names.push(Known {
        shape: form.shape,
        columns: form.columns,
        ..Known::plain(name, spec.body)
    })?;
    if has_values {
        fill(draft, part.start, &form)?;
    }
    Ok(())
}

/// Writes an array. One without values and of one size for all lanes is written as it stands.
fn write_array(
    draft: &mut Draft,
    first: Span,
    spec: Spec,
    part: Span,
    form: &Form,
) -> Result<(), PortRefusal> {
    let start = draft.line.len();
    if form.values == NONE && form.shape == Shape::Plain && form.columns == 0 {
        push_own(draft, spec, part)?;
    } else {
        let name = draft.token(part.start);
        push_array(draft, spec.body, name, form)?;
    }
    ending(draft, part.end)?;
    Ok(write(draft, first, start)?)
}

/// Puts an array as it stands into the line, with a number for its size.
fn push_own(draft: &mut Draft, spec: Spec, part: Span) -> Result<(), PortRefusal> {
    let open = part.start.saturating_add(1);
    let close = draft.partner(open);
    push_words(draft, spec, false)?;
    push_name(draft, spec, part.start)?;
    draft.push(open)?;
    let size = Span {
        start: open.saturating_add(1),
        end: close,
    };
    push_folded(draft, size)?;
    Ok(draft.push(close)?)
}

/// Keeps the statements that give an array of the file its values.
fn fill(draft: &mut Draft, at: usize, form: &Form) -> Result<(), PortRefusal> {
    let indent = draft.indent;
    draft.indent = draft.pool.add(b"\n    ")?;
    let start = draft.line.len();
    let name = draft.token(at);
    push_values(draft, name, form)?;
    let lines = draft.line_from(start);
    draft.fillings.extend(draft.line.part(lines))?;
    draft.line.truncate(start);
    draft.indent = indent;
    Ok(())
}

/// Whether an exported function is called.
fn calls_exported(draft: &Draft) -> bool {
    for number in 0..draft.functions.len() {
        if has_exported_call(draft, draft.functions.function(number).statements) {
            return true;
        }
    }
    false
}

fn has_exported_call(draft: &Draft, part: Span) -> bool {
    for at in part.start..part.end {
        if draft.is(at.saturating_add(1), b"(") && is_exported(draft, at) {
            return true;
        }
    }
    false
}

/// Whether an exported function has the name there.
fn is_exported(draft: &Draft, at: usize) -> bool {
    let name = draft.token(at).text;
    for number in 0..draft.functions.len() {
        let function = draft.functions.function(number);
        if function.is_exported && draft.pool.are_same(function.name, name) {
            return true;
        }
    }
    false
}
