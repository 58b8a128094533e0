//! Values of `?:` with an arm that calls or changes something: `if` and `else`.
use crate::lines::finish;
use crate::statements::push_value;
use port_draft::{DEPTH, Draft};
use port_expressions::{arm_statement, expression};
use port_tokens::{NONE, PortRefusal, Reason, Span};

/// Writes `if` and `else` for `?:`, with what the line has from there on before the value of each arm.
pub(crate) fn choose(
    draft: &mut Draft,
    first: Span,
    start: usize,
    part: Span,
) -> Result<(), PortRefusal> {
    draft.is_late = false;
    let head = draft.line_from(start);
    let test = Span {
        start: part.start,
        end: draft.end_at(part, b"?"),
    };
    let arms = Span {
        start: test.end.saturating_add(1),
        end: part.end,
    };
    let colon = colon(draft, arms)?;
    push_test(draft, test)?;
    let one = Span {
        start: arms.start,
        end: colon,
    };
    arm(draft, head, one)?;
    let indent = draft.indent;
    draft.push_behind(indent, b"} else {")?;
    let other = Span {
        start: colon.saturating_add(1),
        end: part.end,
    };
    arm(draft, head, other)?;
    draft.push_behind(indent, b"}")?;
    finish(draft, first, head.end)?;
    draft.line.truncate(start);
    Ok(())
}

/// Puts `if` with its test into the line.
fn push_test(draft: &mut Draft, test: Span) -> Result<(), PortRefusal> {
    draft.push_text(b"if (")?;
    let start = draft.line.len();
    expression(draft, test, DEPTH)?;
    draft.line.space(start, NONE);
    Ok(draft.push_close(b") {")?)
}

/// Puts an arm into the line as a statement with this head, behind what comes before it.
fn arm(draft: &mut Draft, head: Span, part: Span) -> Result<(), PortRefusal> {
    draft.region = part;
    let (start, before) = (draft.line.len(), draft.before.len());
    draft.line.repeat(head)?;
    let value = draft.line.len();
    push_value(draft, part, true)?;
    draft.line.space(value, draft.blank);
    Ok(arm_statement(draft, start, before)?)
}

/// The `:` that belongs to the `?` before these arms.
fn colon(draft: &Draft, arms: Span) -> Result<usize, PortRefusal> {
    let mut open = 0usize;
    let mut next = arms.start;
    for at in arms.start..arms.end {
        if at < next {
            continue;
        }
        if draft.is(at, b"?") {
            open = open.saturating_add(1);
        } else if draft.is(at, b":") {
            if open == 0 {
                return Ok(at);
            }
            open = open.saturating_sub(1);
        }
        next = draft.partner(at);
    }
    Err(draft.refuse(arms.start, Reason::Word))
}
