//! What is counted of partings, by the lines where lanes part and where they meet again.
ghost use Rattle.std.specs.Prelude.{◌≡◌, ℕ, ◌+◌, Bool, true, Option, Some, IfOk, MatchOption, [], slice_get};
ghost use Rattle.lane_meetings.specs.Partings.{Measure, AreDistinct, is_of, is_same, row_gives, rows_give, rows_of};
ghost use Rattle.lane_meetings.specs.Pending.{Fits, ended_gives};

use crate::waiting::Ended;
use std::alloc::{AllocError, Global};

/// The partings at a line whose lanes meet again at another one, or do not.
#[derive(Clone, Copy, Debug, PartialEq, Eq)]
pub struct Parting {
    /// The line where lanes part.
    pub line: usize,
    /// The line where they meet again; none where their frame is left first, or the run ends.
    pub meets_at: Option<usize>,
    /// How many partings there are.
    pub times: u64,
    /// The steps of their frames between, together.
    pub between: u64,
}

impl Parting {
    /// Whether it is the row of a line and of the one where lanes meet again.
    fn is_of(&self, line: usize, meets_at: Option<usize>) -> bool
        ensures { result ≡ is_of line meets_at self.now }
    {
        self.line == line && is_same(self.meets_at, meets_at)
    }

    /// Counts a parting more.
    fn add(&mut self, between: u64)
        ensures line { self.new.line ≡ self.old.line }
        ensures meets_at { self.new.meets_at ≡ self.old.meets_at }
        ensures times { Fits (self.old.times + 1) → self.new.times ≡ self.old.times + 1 }
        ensures between { Fits (self.old.between + between) → self.new.between ≡ self.old.between + between }
    {
        self.times = self.times.saturating_add(1);
        self.between = self.between.saturating_add(between);
    }
}

fn is_same(one: Option<usize>, other: Option<usize>) -> bool
    ensures { result ≡ is_same one other }
{
    match (one, other) {
        (None, None) => true,
        (Some(one), Some(other)) => one == other,
        _ => false,
    }
}

/// Rows of partings, no two of which are of the same lines.
#[derive(Drop)]
pub(crate) struct Rows {
    rows: Vec<Parting>,
}

impl Rows {
    pub(crate) fn new(alloc: Global) -> Self
        ensures { result.rows.items ≡ [] }
    {
        Rows {
            rows: Vec::new(alloc),
        }
    }

    pub(crate) fn rows(&self) -> &[Parting]
        ensures { result.now ≡ self.now.rows.items }
    {
        self.rows.as_slice()
    }

    /// The number of the row of a line and of the one where lanes meet again.
    fn find(&self, line: usize, meets_at: Option<usize>) -> Option<usize>
        ensures { MatchOption result (rows_of line meets_at self.now.rows.items ≡ 0)
            (λ number. (row : Parting) × (slice_get self.now.rows.items number ≡ Some row) × (is_of line meets_at row ≡ true)) }
    {
        for (number, row) in self.rows.iter().enumerate() {
            if row.is_of(line, meets_at) {
                return Some(number);
            }
        }
        None
    }

    /// Counts a parting that ended.
    ///
    /// # Errors
    ///
    /// Out of memory, where it is the first one of its lines.
    pub(crate) fn add(&mut self, ended: Ended) -> Result<(), AllocError>
        ensures counts { IfOk result (λ _. (measure : Measure) (chosen : ℕ → Option ℕ → Bool)
            → Fits (rows_give measure chosen self.old.rows.items + ended_gives measure chosen ended)
            → rows_give measure chosen self.new.rows.items ≡ rows_give measure chosen self.old.rows.items + ended_gives measure chosen ended) }
        ensures distinct { IfOk result (λ _. AreDistinct self.old.rows.items → AreDistinct self.new.rows.items) }
    {
        if let Some(number) = self.find(ended.line, ended.meets_at) {
            self.rows[number].add(ended.between);
            return Ok(());
        }
        self.rows.push(Parting {
            line: ended.line,
            meets_at: ended.meets_at,
            times: 1,
            between: ended.between,
        })?;
        Ok(())
    }
}
