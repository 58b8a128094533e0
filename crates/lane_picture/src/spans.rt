//! Which steps stand in which row.
ghost use Rattle.std.specs.Prelude.{◌≤◌, IfOk};
ghost use Rattle.lane_picture.specs.Rows.{AreRows};

use std::alloc::{AllocError, Global};

/// The numbers from one to another: the first one, and that behind the last.
#[derive(Clone, Copy, Debug)]
pub(crate) struct Span {
    pub(crate) from: usize,
    pub(crate) to: usize,
}

/// The columns of each row, where a row has so many at most. There is one row at least.
///
/// # Errors
///
/// Out of memory.
pub(crate) fn spans_of(alloc: Global, columns: usize, most: usize) -> Result<Vec<Span>, AllocError>
    requires most { 1 ≤ most }
    ensures { IfOk result (λ spans. AreRows most columns 0 spans.items) }
{
    let mut spans = Vec::new(alloc);
    let mut from = most.min(columns);
    spans.push(Span { from: 0, to: from })?;
    while from < columns {
        let to = from.saturating_add(most).min(columns);
        spans.push(Span { from, to })?;
        from = to;
    }
    Ok(spans)
}
