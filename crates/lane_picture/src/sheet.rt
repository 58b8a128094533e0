//! Where the rows of a picture stand, one under the other.
use crate::columns::{Column, Seen};
use crate::layout::{Layout, columns_of};
use crate::sizes::{LastColumns, Sizes};
use crate::spans::{Span, spans_of};
use std::alloc::{AllocError, Global};

/// The space between two rows.
const BETWEEN: usize = 12;

/// The space below the last row, for how the run ended and what the marks mean.
const BELOW: usize = 40;

/// The least width of a picture.
const LEAST_WIDTH: usize = 560;

/// The rows of a picture.
#[derive(Drop)]
pub(crate) struct Sheet {
    pub(crate) rows: Vec<Layout>,
}

impl Sheet {
    /// The rows for what was seen of a source of these lines, of so many steps each. One row alone shows all lines, each of several
    /// those from the first one with a step of the row to the last one.
    ///
    /// # Errors
    ///
    /// Out of memory.
    pub(crate) fn new(
        alloc: Global,
        seen: &Seen,
        lines: &[&[u8]],
        row_steps: u32,
        first_number: u32,
    ) -> Result<Sheet, AllocError> {
        let sizes = Sizes::new(seen, lines, first_number);
        let spans = spans_of(alloc, seen.columns.len(), (row_steps as usize).max(1))?;
        let all = Span {
            from: 1,
            to: lines.len().saturating_add(1),
        };
        let mut before = LastColumns::none();
        let mut top = 0usize;
        let mut rows = Vec::new(alloc);
        for span in &spans {
            let columns = columns_of(seen, *span);
            let shown = if spans.len() == 1 {
                all
            } else {
                lines_between(columns, lines.len())
            };
            let row = Layout::new(alloc, seen, *span, shown, top, before, sizes)?;
            before = before.and(span.from, columns);
            top = row.end().saturating_add(BETWEEN);
            rows.push(row)?;
        }
        Ok(Sheet { rows })
    }

    pub(crate) fn width(&self) -> usize {
        let right = self.rows.first().map_or(0, |row| row.right());
        right.saturating_add(20).max(LEAST_WIDTH)
    }

    pub(crate) fn height(&self) -> usize {
        let end = self.rows.last().map_or(0, |row| row.end());
        end.saturating_add(BELOW)
    }
}

/// The lines from the first one with a step to the last one, among so many.
fn lines_between(columns: &[Column], count: usize) -> Span {
    let first = columns.iter().map(|column| column.place.line).min();
    let last = columns.iter().map(|column| column.place.line).max();
    Span {
        from: (first.unwrap_or(1) as usize).min(count),
        to: (last.unwrap_or(0) as usize).min(count).saturating_add(1),
    }
}
