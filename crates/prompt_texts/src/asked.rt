//! What the moments of a run say of an expression.
use crate::moments::step_of;
use crate::page::Page;
use crate::places::put_place_alone;
use crate::source::Source;
use debug_traits::{AnswerWriter, Position, RecordedMachine};
use gang_types::Mask;

/// At how many moments an expression is not 0 in a lane, at how many it has a value, and how many steps lead to the first.
#[derive(Clone, Copy, Debug, PartialEq, Eq)]
pub struct Asked {
    count: u64,
    values: u64,
    first: usize,
    is_cut: bool,
    wants_memory: bool,
}

impl Asked {
    /// No moment was asked.
    pub fn new() -> Self {
        Asked {
            count: 0,
            values: 0,
            first: 0,
            is_cut: false,
            wants_memory: false,
        }
    }

    /// At how many moments it is not 0.
    pub fn count(&self) -> u64 {
        self.count
    }

    /// Whether it has a value at a moment, or there was no memory to tell.
    pub fn has_value(&self) -> bool {
        self.values > 0 || self.wants_memory
    }

    /// With a moment more at which it is 0.
    pub fn and_false(self) -> Self {
        Asked {
            values: self.values.saturating_add(1),
            ..self
        }
    }

    /// With a moment more at which it is not 0, behind so many steps.
    pub fn and_true(self, step: usize) -> Self {
        Asked {
            count: self.count.saturating_add(1),
            values: self.values.saturating_add(1),
            first: if self.count == 0 { step } else { self.first },
            ..self
        }
    }

    /// Where later moments were not asked.
    pub fn cut(self) -> Self {
        Asked {
            is_cut: true,
            ..self
        }
    }

    /// Where there was no memory at a moment.
    pub fn without_memory(self) -> Self {
        Asked {
            wants_memory: true,
            ..self
        }
    }
}

/// Writes a place, with marks for the lanes in which an expression is not 0.
pub fn show_moment<M: RecordedMachine, O: AnswerWriter + Drop>(
    position: Position<'_>,
    lanes: Mask,
    source: Source<'_>,
    machine: &M,
    page: &mut Page<O>,
) {
    let there = Position { lanes, ..position };
    put_place_alone(&there, step_of(machine), source, page);
    page.put(b"\n");
}

/// Writes at how many moments an expression is not 0, and how to go to the first.
pub fn tell_asked<O: AnswerWriter + Drop>(asked: &Asked, typed: &[u8], page: &mut Page<O>) {
    page.put_masked(typed);
    if asked.count == 0 {
        page.put(b": 0 at each of the ");
    } else {
        page.put(b": not 0 at ");
        page.put_number(i128::from(asked.count));
        page.put(b" of the ");
    }
    page.put_number(i128::from(asked.values));
    page.put(b" moments at which it has a value");
    if asked.count > 0 {
        page.put(b"; `goto ");
        page.put_number(asked.first as i128);
        page.put(b"` goes to the first");
    }
    page.put(b"\n");
    tell_unasked(asked, page);
}

/// Writes which moments were not asked.
fn tell_unasked<O: AnswerWriter + Drop>(asked: &Asked, page: &mut Page<O>) {
    if asked.is_cut {
        page.put(b"the step limit of one command is reached: later moments are not told\n");
    }
    if asked.wants_memory {
        page.put(b"C12 Memory: there was no memory at some moments, which are not told\n");
    }
}
