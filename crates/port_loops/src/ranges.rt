//! What stands in the parentheses of the loops over ranges and lanes.
use port_draft::Draft;
use port_statements::head_value;
use port_tokens::{PortRefusal, Reason, Span};

/// Puts the ranges of a `foreach` into the line.
pub(crate) fn push_dimensions(draft: &mut Draft, inside: Span) -> Result<(), PortRefusal> {
    let mut rest = inside;
    for _ in inside.start..inside.end {
        let end = draft.end_at(rest, b",");
        let part = Span {
            start: rest.start,
            end,
        };
        push_dimension(draft, part)?;
        if end >= inside.end {
            break;
        }
        draft.push(end)?;
        rest.start = end.saturating_add(1);
    }
    Ok(())
}

fn push_dimension(draft: &mut Draft, part: Span) -> Result<(), PortRefusal> {
    let sign = part.start.saturating_add(1);
    let dots = draft.end_at(part, b"...");
    if dots >= part.end || !draft.is_word(part.start) || !draft.is(sign, b"=") {
        return Err(draft.refuse(part.start, Reason::Statement));
    }
    draft.push(part.start)?;
    draft.push(sign)?;
    let low = Span {
        start: sign.saturating_add(1),
        end: dots,
    };
    head_value(draft, low)?;
    draft.push(dots)?;
    let high = Span {
        start: dots.saturating_add(1),
        end: part.end,
    };
    head_value(draft, high)
}

/// Puts the name of a loop over lanes into the line, with the value that is unique.
pub(crate) fn push_lanes(draft: &mut Draft, inside: Span) -> Result<(), PortRefusal> {
    let word = inside.start.saturating_add(1);
    if !draft.is_word(inside.start) || (word < inside.end && !draft.is(word, b"in")) {
        return Err(draft.refuse(inside.start, Reason::Statement));
    }
    draft.push(inside.start)?;
    if word >= inside.end {
        return Ok(());
    }
    draft.push(word)?;
    let value = Span {
        start: word.saturating_add(1),
        end: inside.end,
    };
    head_value(draft, value)
}
