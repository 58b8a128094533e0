//! Functions and variables of the file.
use crate::functions::function;
use crate::variables::variables;
use port_draft::Draft;
use port_statements::{begin, leave_out, spec_of, write};
use port_tokens::{Kind, NOTHING, PortRefusal, Reason, Span, Token};
use std::alloc::AllocError;

/// Reads the whole source.
pub(crate) fn read_file(draft: &mut Draft) -> Result<(), PortRefusal> {
    if has_tables(draft) {
        let stem = draft.pool.add(b"fill_tables")?;
        draft.filling = Some(draft.fresh(stem)?.text);
    }
    let end = draft.tokens.len().saturating_sub(1);
    let mut next = 0usize;
    for _ in 0..draft.tokens.len() {
        if next >= end {
            break;
        }
        next = read_item(draft, next)?;
    }
    write_filling(draft)?;
    Ok(draft.copy(end)?)
}

/// Whether an array of the file has values.
fn has_tables(draft: &Draft) -> bool {
    let mut next = 0usize;
    for at in 0..draft.tokens.len() {
        if at < next {
            continue;
        }
        if draft.is(at, b"=") && draft.is(at.saturating_add(1), b"{") {
            return true;
        }
        next = draft.partner(at);
    }
    false
}

/// Reads a function, a prototype or variables, and says where what is next stands.
fn read_item(draft: &mut Draft, at: usize) -> Result<usize, PortRefusal> {
    if draft.is(at, b";") {
        leave_out(draft, at)?;
        return Ok(at.saturating_add(1));
    }
    if !draft.is_spec(at) {
        return Err(draft.refuse(at, not_an_item(draft, at)));
    }
    let first = begin(draft, at);
    let spec = spec_of(draft, at)?;
    let open = spec.words.end.saturating_add(1);
    if !draft.is(open, b"(") {
        return variables(draft, first, at, spec);
    }
    let behind = draft.partner(open).saturating_add(1);
    if draft.is(behind, b"{") {
        return function(draft, spec, behind);
    }
    if !draft.is(behind, b";") {
        return Err(draft.refuse(behind, Reason::Word));
    }
    leave_out(draft, at)?;
    Ok(behind.saturating_add(1))
}

fn not_an_item(draft: &Draft, at: usize) -> Reason {
    if draft.is_foreign_type(at) {
        Reason::Type
    } else {
        Reason::Word
    }
}

/// Writes the function that fills the tables.
fn write_filling(draft: &mut Draft) -> Result<(), AllocError> {
    let Some(name) = draft.filling else {
        return Ok(());
    };
    let start = draft.line.len();
    draft.push_text(b"void")?;
    draft.line.push(Token {
        before: draft.blank,
        text: name,
        at: 0,
        kind: Kind::Word,
    })?;
    draft.push_close(b"() {")?;
    let line = draft.pool.add(b"\n\n")?;
    write(draft, line, start)?;
    let all = Span {
        start: 0,
        end: draft.fillings.len(),
    };
    draft.written.extend(draft.fillings.part(all))?;
    draft.push_close(b"}")?;
    let line = draft.pool.add(b"\n")?;
    write(draft, line, start)?;
    draft.put(NOTHING)
}
