//! The rows of a table, dearest first.
use lane_counts::{Counts, lost};
use std::alloc::{AllocError, Global};

/// The counts of a line or a function, by its number.
#[derive(Clone, Copy, Debug)]
pub(crate) struct Row {
    pub(crate) number: usize,
    pub(crate) counts: Counts,
    pub(crate) lost: u64,
}

/// The counts of a number.
pub(crate) fn counts_at(rows: &[Counts], number: usize) -> Counts {
    match rows.get(number) {
        Some(counts) => *counts,
        None => Counts::none(),
    }
}

/// The rows that have steps, those first where most places for lanes are lost.
///
/// # Errors
///
/// Out of memory.
pub(crate) fn dearest_first(
    alloc: Global,
    counts: &[Counts],
    width: usize,
) -> Result<Vec<Row>, AllocError> {
    let mut rows = Vec::new(alloc);
    for (number, counts) in counts.iter().enumerate() {
        if counts.steps > 0 {
            rows.push(Row {
                number,
                counts: *counts,
                lost: lost(*counts, width),
            })?;
        }
    }
    rows.sort_by_key(|row| u64::MAX - row.lost)?;
    Ok(rows)
}
