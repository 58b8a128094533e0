//! The sizes that all rows of a picture share, in pixels.
use crate::columns::{Column, Seen};
use crate::source::shown_part;
use crate::strip::longest_value;

/// The most lanes of a gang.
pub(crate) const WIDEST: usize = 16;

/// The width of a character of the source.
const CHARACTER: usize = 8;

/// The width of a digit of a value.
const DIGIT: usize = 6;

/// The least width of a column.
const LEAST_COLUMN: usize = 18;

/// The height of a line without steps.
pub(crate) const LOW_LINE: usize = 20;

/// Where the name of the first lane stands, above the source.
pub(crate) const FIRST_LANE: usize = 92;

/// The space for the name of a lane.
pub(crate) const LANE_NAME: usize = 24;

/// The space left of the source, for the numbers of its lines.
const NUMBERS: usize = 48;

/// The sizes that all rows share, the number of the first step, and the last column of each lane.
#[derive(Clone, Copy)]
pub(crate) struct Sizes {
    pub(crate) lane_gap: usize,
    /// The height of a line with steps.
    pub(crate) line_height: usize,
    pub(crate) column_width: usize,
    /// Where the first column of each row begins.
    pub(crate) left: usize,
    pub(crate) first_number: usize,
    pub(crate) last: LastColumns,
}

impl Sizes {
    /// The sizes for what was seen of a source of these lines, from the step of this number on.
    pub(crate) fn new(seen: &Seen, lines: &[&[u8]], first_number: u32) -> Sizes {
        let lane_gap = gap_of(seen.width);
        let line_height = seen.width.saturating_mul(lane_gap).saturating_add(8);
        let longest = lines.iter().map(|line| shown_part(line).len()).max();
        let text = longest.unwrap_or(0).max(20).saturating_mul(CHARACTER);
        Sizes {
            lane_gap,
            line_height: line_height.max(LOW_LINE),
            column_width: longest_value(seen)
                .saturating_mul(DIGIT)
                .saturating_add(6)
                .max(LEAST_COLUMN),
            left: text.saturating_add(NUMBERS + 16).max(names_end(seen.width)),
            first_number: first_number as usize,
            last: LastColumns::none().and(0, &seen.columns),
        }
    }
}

/// Where the names of so many lanes end, above the source.
fn names_end(width: usize) -> usize {
    width.saturating_mul(LANE_NAME).saturating_add(FIRST_LANE)
}

/// The space between the dots of two lanes.
fn gap_of(width: usize) -> usize {
    match width {
        0..=4 => 7,
        5..=8 => 6,
        _ => 5,
    }
}

/// The last column of each lane among some columns.
#[derive(Clone, Copy)]
pub(crate) struct LastColumns {
    of_lanes: [Option<usize>; WIDEST],
}

impl LastColumns {
    /// Those among no columns.
    pub(crate) fn none() -> LastColumns {
        LastColumns {
            of_lanes: [None; WIDEST],
        }
    }

    /// Those among more columns, the first of which is this one.
    pub(crate) fn and(self, from: usize, columns: &[Column]) -> LastColumns {
        let mut last = self;
        for (index, column) in columns.iter().enumerate() {
            last.note(from.saturating_add(index), column);
        }
        last
    }

    /// Notes the lanes of a column.
    fn note(&mut self, index: usize, column: &Column) {
        for lane in 0..WIDEST {
            if column.lanes.has::<WIDEST>(lane) {
                self.of_lanes[lane] = Some(index);
            }
        }
    }

    /// The last column of a lane.
    pub(crate) fn of(&self, lane: usize) -> Option<usize> {
        match self.of_lanes.get(lane) {
            Some(column) => *column,
            None => None,
        }
    }
}
