//! Counts by numbers, as lines.
ghost use Rattle.std.specs.Prelude.{◌≡◌, ℕ, ◌<◌, ◌≤◌, ◌^◌, ◌==◌, ◌&&◌, nat_lt, IfOk, [], length, slice_get, vec_len};
ghost use Rattle.lane_counts.specs.Counted.{AreFew, AreSameBut, counts_at, hits, noted, with_partings, with_parting, with_step};
ghost use Rattle.lane_counts.specs.Formed as formed;
ghost use Rattle.lane_counts.specs.Pending.{has_function};

use crate::counts::Counts;
use crate::forms::{Part, has_part};
use crate::frames::Frames;
use foreach_forms::Form;
use gang_types::Spot;
use std::alloc::{AllocError, Global};

/// Counts by numbers. It has as many as the greatest number that was counted asks for.
#[derive(Drop)]
pub struct Table {
    rows: Vec<Counts>,
}

impl Table {
    pub(crate) fn new(alloc: Global) -> Self
        ensures { result.rows.items ≡ [] }
    {
        Table {
            rows: Vec::new(alloc),
        }
    }

    /// The counts of all numbers from 0 on: behind them nothing was counted.
    pub fn rows(&self) -> &[Counts]
        ensures { result.now ≡ self.now.rows.items }
    {
        self.rows.as_slice()
    }

    /// Counts a step at a number, and at another one, if there is one, that lanes part which were together there.
    ///
    /// # Errors
    ///
    /// Out of memory.
    pub(crate) fn add(
        &mut self,
        number: usize,
        parted: Option<usize>,
        lanes: usize,
        width: usize,
    ) -> Result<(), AllocError>
        requires few { AreFew (2 ^ 39) self.old.rows.items }
        requires lanes { lanes ≤ 16 }
        ensures { IfOk result (λ _. (k : ℕ) → counts_at self.new.rows.items k
            ≡ noted (number == k) lanes width (hits parted k) (counts_at self.old.rows.items k)) }
    {
        self.add_parted(parted)?;
        self.add_step(number, lanes, width)
    }

    /// Counts a step at a number, if it is one that counts.
    ///
    /// # Errors
    ///
    /// Out of memory.
    pub(crate) fn add_if(
        &mut self,
        is_counted: bool,
        number: usize,
        lanes: usize,
        width: usize,
    ) -> Result<(), AllocError>
        requires few { AreFew (2 ^ 39) self.old.rows.items }
        requires lanes { lanes ≤ 16 }
        ensures { IfOk result (λ _. (k : ℕ) → counts_at self.new.rows.items k
            ≡ noted (is_counted && number == k) lanes width 0 (counts_at self.old.rows.items k)) }
    {
        if is_counted {
            self.add(number, None, lanes, width)
        } else {
            Ok(())
        }
    }

    /// Counts a step of the frames that stand at the number of each function of theirs, up to a number.
    ///
    /// # Errors
    ///
    /// Out of memory.
    pub(crate) fn add_each(
        &mut self,
        count: usize,
        frames: &Frames,
        lanes: usize,
        width: usize,
    ) -> Result<(), AllocError>
        requires few { AreFew (2 ^ 39) self.old.rows.items }
        requires lanes { lanes ≤ 16 }
        ensures { IfOk result (λ _. (k : ℕ) → counts_at self.new.rows.items k
            ≡ noted (nat_lt k count && has_function k frames.now.lasts.items) lanes width 0 (counts_at self.old.rows.items k)) }
    {
        for number in 0..count {
            if frames.has(number) {
                self.add_step(number, lanes, width)?;
            }
        }
        Ok(())
    }

    /// Counts a step at the number of each form that it is such a part of.
    ///
    /// # Errors
    ///
    /// Out of memory.
    pub(crate) fn add_forms(
        &mut self,
        forms: &[Form],
        part: Part,
        spot: Spot,
        lanes: usize,
        width: usize,
    ) -> Result<(), AllocError>
        requires few { AreFew (2 ^ 39) self.old.rows.items }
        requires lanes { lanes ≤ 16 }
        ensures { IfOk result (λ _. (k : ℕ) → counts_at self.new.rows.items k
            ≡ noted (nat_lt k (length forms.now) && formed.has_part part (slice_get forms.now k) spot) lanes width 0 (counts_at self.old.rows.items k)) }
    {
        for number in 0..forms.len() {
            if has_part(forms, number, part, spot) {
                self.add_step(number, lanes, width)?;
            }
        }
        Ok(())
    }

    fn add_parted(&mut self, parted: Option<usize>) -> Result<(), AllocError>
        requires { AreFew (2 ^ 39) self.old.rows.items }
        ensures { IfOk result (λ _. (k : ℕ) → counts_at self.new.rows.items k ≡ with_partings (hits parted k) (counts_at self.old.rows.items k)) }
    {
        match parted {
            Some(number) => self.add_parting(number),
            None => Ok(()),
        }
    }

    /// Counts a step at a number.
    ///
    /// # Errors
    ///
    /// Out of memory.
    fn add_step(&mut self, number: usize, lanes: usize, width: usize) -> Result<(), AllocError>
        requires few { AreFew (2 ^ 40) self.old.rows.items }
        requires lanes { lanes ≤ 16 }
        ensures here { IfOk result (λ _. counts_at self.new.rows.items number ≡ with_step lanes width (counts_at self.old.rows.items number)) }
        ensures others { IfOk result (λ _. AreSameBut number self.old.rows.items self.new.rows.items) }
    {
        self.grow(number)?;
        self.rows[number].add_step(lanes, width);
        Ok(())
    }

    /// Counts a parting at a number.
    ///
    /// # Errors
    ///
    /// Out of memory.
    fn add_parting(&mut self, number: usize) -> Result<(), AllocError>
        requires { AreFew (2 ^ 40) self.old.rows.items }
        ensures here { IfOk result (λ _. counts_at self.new.rows.items number ≡ with_parting (counts_at self.old.rows.items number)) }
        ensures others { IfOk result (λ _. AreSameBut number self.old.rows.items self.new.rows.items) }
    {
        self.grow(number)?;
        self.rows[number].add_parting();
        Ok(())
    }

    /// Makes room for a number.
    fn grow(&mut self, number: usize) -> Result<(), AllocError>
        ensures same { (k : ℕ) → counts_at self.new.rows.items k ≡ counts_at self.old.rows.items k }
        ensures room { IfOk result (λ _. number < vec_len self.new.rows) }
    {
        while self.rows.len() <= number {
            self.rows.push(Counts::none())?;
        }
        Ok(())
    }
}
