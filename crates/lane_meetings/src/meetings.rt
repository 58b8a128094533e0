//! The partings of a run, step by step.
ghost use Rattle.std.specs.Prelude.{◌≡◌, ℕ, ◌+◌, Bool, List, ◌∷◌, [], Option, IfOk};
ghost use Rattle.lane_counts.specs.Steps.{Stand};
ghost use Rattle.lane_counts.specs.Tallies.{IsAt};
ghost use Rattle.lane_meetings.specs.Partings.{Measure, AreDistinct, rows_give};
ghost use Rattle.lane_meetings.specs.Pending.{Fits, IsBegun, after_gives, counted_with, left_gives, pending};

use crate::rows::{Parting, Rows};
use crate::waiting::{After, Ended, Waiting};
use lane_counts::StepAt;
use std::alloc::{AllocError, Global};
use std::mem;

/// What is counted of the partings of a run, and those that have not ended.
#[derive(Drop)]
pub struct Meetings {
    rows: Rows,
    waiting: Vec<Waiting>,
    /// Room for those that are waiting at the next step.
    next: Vec<Waiting>,
}

impl Meetings {
    /// Nothing is counted.
    pub fn new(alloc: Global) -> Self
        ensures { IsBegun result }
    {
        Meetings {
            rows: Rows::new(alloc),
            waiting: Vec::new(alloc),
            next: Vec::new(alloc),
        }
    }

    /// What is counted of the partings that have ended: no two rows are of the same lines.
    pub fn rows(&self) -> &[Parting]
        ensures { result.now ≡ self.now.rows.rows.items }
    {
        self.rows.rows()
    }

    /// Notes a step.
    ///
    /// # Errors
    ///
    /// Out of memory.
    pub fn note(&mut self, at: StepAt<'_>) -> Result<(), AllocError>
        ensures counts { IfOk result (λ _. (measure : Measure) (chosen : ℕ → Option ℕ → Bool) (stand : Stand) (later : List Stand) → IsAt at.entry stand
            → Fits (counted_with measure chosen self.old (stand ∷ later)) → counted_with measure chosen self.new later ≡ counted_with measure chosen self.old (stand ∷ later)) }
        ensures distinct { IfOk result (λ _. AreDistinct self.old.rows.rows.items → AreDistinct self.new.rows.rows.items) }
    {
        self.next.clear();
        go_on(&self.waiting, at, &mut self.rows, &mut self.next)?;
        self.next.push(Waiting::last(at))?;
        mem::swap(&mut self.waiting, &mut self.next);
        Ok(())
    }

    /// Ends the partings whose lanes have not met again: no step follows.
    ///
    /// # Errors
    ///
    /// Out of memory.
    pub fn finish(&mut self) -> Result<(), AllocError>
        ensures counts { IfOk result (λ _. (measure : Measure) (chosen : ℕ → Option ℕ → Bool) → Fits (counted_with measure chosen self.old [])
            → rows_give measure chosen self.new.rows.rows.items ≡ counted_with measure chosen self.old []) }
        ensures distinct { IfOk result (λ _. AreDistinct self.old.rows.rows.items → AreDistinct self.new.rows.rows.items) }
    {
        end_all(&self.waiting, &mut self.rows)?;
        self.waiting.clear();
        Ok(())
    }
}

/// Counts what ends at a step of those that wait, and keeps the others.
fn go_on(
    waiting: &[Waiting],
    at: StepAt<'_>,
    rows: &mut Rows,
    kept: &mut Vec<Waiting>,
) -> Result<(), AllocError>
    ensures counts { IfOk result (λ _. (measure : Measure) (chosen : ℕ → Option ℕ → Bool) (stand : Stand) (later : List Stand) → IsAt at.entry stand
        → Fits (rows_give measure chosen rows.old.rows.items + pending measure chosen kept.old.items later + pending measure chosen waiting.now (stand ∷ later))
        → rows_give measure chosen rows.new.rows.items + pending measure chosen kept.new.items later
        ≡ rows_give measure chosen rows.old.rows.items + pending measure chosen kept.old.items later + pending measure chosen waiting.now (stand ∷ later)) }
    ensures distinct { IfOk result (λ _. AreDistinct rows.old.rows.items → AreDistinct rows.new.rows.items) }
{
    for step in waiting {
        keep(step.after(at), rows, kept)?;
    }
    Ok(())
}

/// Counts what ended, or keeps what did not.
fn keep(after: After, rows: &mut Rows, kept: &mut Vec<Waiting>) -> Result<(), AllocError>
    ensures counts { IfOk result (λ _. (measure : Measure) (chosen : ℕ → Option ℕ → Bool) (later : List Stand)
        → Fits (rows_give measure chosen rows.old.rows.items + after_gives measure chosen later after)
        → rows_give measure chosen rows.new.rows.items + pending measure chosen kept.new.items later
        ≡ rows_give measure chosen rows.old.rows.items + pending measure chosen kept.old.items later + after_gives measure chosen later after) }
    ensures distinct { IfOk result (λ _. AreDistinct rows.old.rows.items → AreDistinct rows.new.rows.items) }
{
    match after {
        After::Waits(waiting) => {
            kept.push(waiting)?;
            Ok(())
        }
        After::Ends(ended) => rows.add(ended),
        After::Gone => Ok(()),
    }
}

/// Counts those that are waiting as ended without lanes that meet again.
fn end_all(waiting: &[Waiting], rows: &mut Rows) -> Result<(), AllocError>
    ensures counts { IfOk result (λ _. (measure : Measure) (chosen : ℕ → Option ℕ → Bool)
        → Fits (rows_give measure chosen rows.old.rows.items + pending measure chosen waiting.now [])
        → rows_give measure chosen rows.new.rows.items ≡ rows_give measure chosen rows.old.rows.items + pending measure chosen waiting.now []) }
    ensures distinct { IfOk result (λ _. AreDistinct rows.old.rows.items → AreDistinct rows.new.rows.items) }
{
    for step in waiting {
        end(step.left(), rows)?;
    }
    Ok(())
}

/// Counts a parting that ended, if there is one.
fn end(ended: Option<Ended>, rows: &mut Rows) -> Result<(), AllocError>
    ensures counts { IfOk result (λ _. (measure : Measure) (chosen : ℕ → Option ℕ → Bool) → Fits (rows_give measure chosen rows.old.rows.items + left_gives measure chosen ended)
        → rows_give measure chosen rows.new.rows.items ≡ rows_give measure chosen rows.old.rows.items + left_gives measure chosen ended) }
    ensures distinct { IfOk result (λ _. AreDistinct rows.old.rows.items → AreDistinct rows.new.rows.items) }
{
    match ended {
        Some(ended) => rows.add(ended),
        None => Ok(()),
    }
}
