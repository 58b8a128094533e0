//! Elements of arrays, and what is written for their indices.
use port_draft::Draft;
use port_tokens::{PortRefusal, Reason, Span};
use std::alloc::AllocError;

/// An element: its index, the index of its column where the array has two dimensions, how many columns that has, else 0,
/// where the first index ends, and where the last.
#[derive(Clone, Copy)]
pub(crate) struct Element {
    pub(crate) index: Span,
    pub(crate) column: Span,
    pub(crate) columns: i64,
    close: usize,
    last: usize,
}

impl Element {
    /// Whether it has an index for its row and one for its column.
    pub(crate) fn has_two(&self) -> bool {
        self.last > self.close
    }
}

/// The parts of an element.
pub(crate) fn element_of(draft: &Draft, part: Span) -> Element {
    let open = part.start.saturating_add(1);
    let close = draft.partner(open);
    let columns = draft.columns(part.start);
    let second = close.saturating_add(1);
    let last = if columns > 0 && second < part.end {
        draft.partner(second)
    } else {
        close
    };
    Element {
        index: Span {
            start: open.saturating_add(1),
            end: close,
        },
        column: Span {
            start: second.saturating_add(1),
            end: last,
        },
        columns,
        close,
        last,
    }
}

/// Puts the operators behind the index of a row, which the line has from there on.
pub(crate) fn put_row(draft: &mut Draft, start: usize, columns: i64) -> Result<(), AllocError> {
    draft.enclose_operand(start)?;
    draft.push_text(b"*")?;
    draft.push_number(columns)?;
    draft.push_text(b"+")
}

/// Encloses the index of a column, which the line has from there on.
pub(crate) fn put_column(draft: &mut Draft, start: usize) -> Result<(), AllocError> {
    draft.enclose_operand(start)?;
    draft.line.space(start, draft.blank);
    Ok(())
}

/// Makes of an index, which the line has from there on, that of an element in the column of a lane.
pub fn put_lane(draft: &mut Draft, start: usize) -> Result<(), AllocError> {
    draft.enclose_operand(start)?;
    draft.push_text(b"*")?;
    draft.push_text(b"programCount")?;
    draft.push_text(b"+")?;
    draft.push_text(b"programIndex")
}

/// Ends an element, whose index the line has from there on.
pub(crate) fn end_element(
    draft: &mut Draft,
    part: Span,
    element: &Element,
    start: usize,
) -> Result<(), PortRefusal> {
    let last = element.last;
    if last.saturating_add(1) != part.end || (element.columns > 0 && last == element.close) {
        return Err(draft.refuse(last, Reason::Word));
    }
    if draft.is_column(part.start) {
        put_lane(draft, start)?;
    }
    Ok(draft.push(last)?)
}

/// Refuses an array as a whole of which each lane has a column.
pub(crate) fn check_whole(draft: &Draft, at: usize) -> Result<(), PortRefusal> {
    if draft.is_column(at) {
        Err(draft.refuse(at, Reason::WholeArray))
    } else {
        Ok(())
    }
}
