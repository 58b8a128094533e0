//! The labels of a `switch`.
use port_arrays::push_folded;
use port_draft::Draft;
use port_statements::write;
use port_tokens::{PortRefusal, Reason, Span, is_one_of};

/// Whether a label begins there.
pub(crate) fn is_label(draft: &Draft, at: usize) -> bool {
    is_one_of(draft.text(at), &[b"case", b"default"])
}

/// Writes a label, with a number for its constant, and says where what is next stands.
pub(crate) fn read_label(draft: &mut Draft, at: usize) -> Result<usize, PortRefusal> {
    let rest = Span {
        start: at.saturating_add(1),
        end: draft.tokens.len(),
    };
    let colon = draft.end_at(rest, b":");
    if colon >= rest.end {
        return Err(draft.refuse(at, Reason::Statement));
    }
    let start = draft.line.len();
    draft.push(at)?;
    if draft.is(at, b"case") {
        let value = Span {
            start: rest.start,
            end: colon,
        };
        push_folded(draft, value)?;
    } else if colon != rest.start {
        return Err(draft.refuse(rest.start, Reason::Statement));
    }
    draft.push(colon)?;
    let before = draft.token(at).before;
    write(draft, before, start)?;
    Ok(colon.saturating_add(1))
}
