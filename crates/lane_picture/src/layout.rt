//! Where the parts of a row of a picture stand, in pixels.
use crate::columns::{Column, MOST_WORDS, Seen};
use crate::sizes::{LOW_LINE, LastColumns, Sizes};
use crate::spans::Span;
use std::alloc::{AllocError, Global};

/// The height of a row of values.
const VALUE_ROW: usize = 14;

/// What stands above the first line: the lanes' names, and the numbers of the steps.
const ABOVE: usize = 34;

/// A point.
#[derive(Clone, Copy, Debug)]
pub(crate) struct Point {
    pub(crate) x: usize,
    pub(crate) y: usize,
}

/// The sizes of a row, and which steps and lines it shows.
#[derive(Drop)]
pub(crate) struct Layout {
    pub(crate) sizes: Sizes,
    /// The columns of the row.
    span: Span,
    /// The last column of each lane before the row.
    before: LastColumns,
    /// Where the row begins.
    top: usize,
    /// The first line that is shown.
    pub(crate) first_line: usize,
    /// Where each line begins, and where the last one ends.
    tops: Vec<usize>,
    /// How many rows of values stand below.
    pub(crate) value_rows: usize,
}

impl Layout {
    /// The sizes of a row of these columns and lines, which begins at `top`.
    ///
    /// # Errors
    ///
    /// Out of memory.
    pub(crate) fn new(
        alloc: Global,
        seen: &Seen,
        span: Span,
        lines: Span,
        top: usize,
        before: LastColumns,
        sizes: Sizes,
    ) -> Result<Layout, AllocError> {
        let columns = columns_of(seen, span);
        let has_step = stepped_lines(alloc, columns, lines)?;
        let tops = tops_of(
            alloc,
            top.saturating_add(ABOVE),
            &has_step,
            sizes.line_height,
        )?;
        Ok(Layout {
            sizes,
            span,
            before,
            top,
            first_line: lines.from,
            tops,
            value_rows: most_values(seen, columns),
        })
    }

    /// The columns of the row.
    pub(crate) fn columns<'a>(&self, seen: &'a Seen) -> &'a [Column] {
        columns_of(seen, self.span)
    }

    /// The number of the step of a column of the row.
    pub(crate) fn number(&self, index: usize) -> usize {
        self.sizes
            .first_number
            .saturating_add(self.span.from)
            .saturating_add(index)
    }

    /// Where a lane was before the row, if it did a step there, and whether that is the step just before.
    pub(crate) fn came_from<'a>(&self, seen: &'a Seen, lane: usize) -> Option<(&'a Column, bool)> {
        let at = self.before.of(lane)?;
        let column = seen.columns.get(at)?;
        Some((column, at.saturating_add(1) == self.span.from))
    }

    /// Whether a lane does a step behind the row.
    pub(crate) fn goes_on(&self, lane: usize) -> bool {
        self.sizes
            .last
            .of(lane)
            .is_some_and(|at| at >= self.span.to)
    }

    /// Whether the row has the last column.
    pub(crate) fn is_last(&self, seen: &Seen) -> bool {
        self.span.to >= seen.columns.len()
    }

    /// The column behind the row.
    pub(crate) fn next_column<'a>(&self, seen: &'a Seen) -> Option<&'a Column> {
        seen.columns.get(self.span.to)
    }

    /// The lines that the row shows.
    pub(crate) fn lines<'a>(&self, lines: &'a [&'a [u8]]) -> &'a [&'a [u8]] {
        let from = self.first_line.saturating_sub(1);
        lines
            .get(from..from.saturating_add(self.tops.len()).saturating_sub(1))
            .unwrap_or(&[])
    }

    /// Whether a line is shown.
    pub(crate) fn shows(&self, line: usize) -> bool {
        line >= self.first_line && line - self.first_line < self.tops.len().saturating_sub(1)
    }

    /// Where a column of the row begins.
    pub(crate) fn column_left(&self, index: usize) -> usize {
        self.sizes
            .left
            .saturating_add(index.saturating_mul(self.sizes.column_width))
    }

    /// The middle of a column.
    pub(crate) fn middle(&self, index: usize) -> usize {
        self.column_left(index)
            .saturating_add(self.sizes.column_width / 2)
    }

    /// Where the last column ends.
    pub(crate) fn right(&self) -> usize {
        self.column_left(self.span.to.saturating_sub(self.span.from))
    }

    /// The baseline of what stands above the lines.
    pub(crate) fn names_line(&self) -> usize {
        self.top.saturating_add(22)
    }

    /// Where the first line begins.
    pub(crate) fn lines_top(&self) -> usize {
        self.top.saturating_add(ABOVE)
    }

    /// Where the last line ends.
    pub(crate) fn lines_end(&self) -> usize {
        self.tops.last().copied().unwrap_or(self.lines_top())
    }

    /// Where a line begins; for one before those that are shown where they begin, for one behind them where they end.
    pub(crate) fn line_top(&self, line: usize) -> usize {
        let top = self.tops.get(line.saturating_sub(self.first_line));
        top.copied().unwrap_or(self.lines_end())
    }

    /// The height of a line.
    pub(crate) fn line_height(&self, line: usize) -> usize {
        self.line_top(line.saturating_add(1))
            .saturating_sub(self.line_top(line))
    }

    /// Where the dot of a lane stands on a line, downwards; for a line that is not shown the edge that is next to it.
    pub(crate) fn lane_line(&self, line: usize, lane: usize) -> usize {
        let top = self.line_top(line);
        if !self.shows(line) {
            return top;
        }
        let down = lane.saturating_mul(self.sizes.lane_gap).saturating_add(8);
        top.saturating_add(down)
    }

    /// Where the dot of a lane stands.
    pub(crate) fn dot(&self, index: usize, column: &Column, lane: usize) -> Point {
        Point {
            x: self.middle(index),
            y: self.lane_line(column.place.line as usize, lane),
        }
    }

    /// Where a row of values begins.
    pub(crate) fn value_top(&self, row: usize) -> usize {
        self.lines_end()
            .saturating_add(6)
            .saturating_add(row.saturating_mul(VALUE_ROW))
    }

    /// Where the row ends.
    pub(crate) fn end(&self) -> usize {
        self.value_top(self.value_rows)
    }
}

/// The columns from one to another.
pub(crate) fn columns_of(seen: &Seen, span: Span) -> &[Column] {
    seen.columns
        .as_slice()
        .get(span.from..span.to)
        .unwrap_or(&[])
}

/// The most values of the watched variable in one column.
fn most_values(seen: &Seen, columns: &[Column]) -> usize {
    let most = columns
        .iter()
        .map(|column| seen.values_at(column).len())
        .max();
    most.unwrap_or(0).min(MOST_WORDS)
}

/// For each line of some, whether a step of a column stands on it.
fn stepped_lines(alloc: Global, columns: &[Column], lines: Span) -> Result<Vec<bool>, AllocError> {
    let mut has_step = vec![in alloc; false; lines.to.saturating_sub(lines.from)]?;
    for column in columns {
        let line = column.place.line as usize;
        if line >= lines.from {
            if let Some(is_stepped) = has_step.get_mut(line - lines.from) {
                *is_stepped = true;
            }
        }
    }
    Ok(has_step)
}

/// Where each line begins, the first one at `top`, and where the last one ends. Lines with steps have this height.
fn tops_of(
    alloc: Global,
    top: usize,
    has_step: &[bool],
    height: usize,
) -> Result<Vec<usize>, AllocError> {
    let mut tops = Vec::new(alloc);
    let mut next = top;
    for is_high in has_step {
        tops.push(next)?;
        next = next.saturating_add(if *is_high { height } else { LOW_LINE });
    }
    tops.push(next)?;
    Ok(tops)
}
