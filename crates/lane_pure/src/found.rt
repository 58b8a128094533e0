//! Functions that were found, and those that lead to them by calls.
ghost use Rattle.std.specs.Prelude.{◌≡◌, IfOk, false, true, length, map, not, replicate, slice_set, vec_len};
ghost use Rattle.lane_pure.specs.Callers.{lists};
ghost use Rattle.lane_pure.specs.Found.{IsListed, IsSpread, Keeps, with_all};

use std::alloc::{AllocError, Global};

/// Functions that were found: a mark for each function, and the numbers of those with one, in the order in which they were found.
#[derive(Drop)]
pub(crate) struct Found {
    marks: Vec<bool>,
    order: Vec<usize>,
}

impl Found {
    /// None of so many functions.
    ///
    /// # Errors
    ///
    /// Out of memory.
    pub fn none(alloc: Global, count: usize) -> Result<Self, AllocError>
        ensures marks { IfOk result (λ found. found.marks.items ≡ replicate count false) }
        ensures listed { IfOk result (λ found. IsListed found.marks.items found.order.items) }
    {
        Ok(Found {
            marks: vec![in alloc; false; count]?,
            order: Vec::new(alloc),
        })
    }

    /// Puts a function to those that were found, if there is such a one.
    ///
    /// # Errors
    ///
    /// Out of memory.
    pub fn add(&mut self, number: usize) -> Result<(), AllocError>
        requires { IsListed self.old.marks.items self.old.order.items }
        ensures marks { IfOk result (λ _. self.new.marks.items ≡ slice_set self.old.marks.items number true) }
        ensures listed { IfOk result (λ _. IsListed self.new.marks.items self.new.order.items) }
        ensures order { IfOk result (λ _. Keeps self.old.order.items self.new.order.items) }
    {
        if number < self.marks.len() && !self.marks[number] {
            self.order.push(number)?;
            self.marks[number] = true;
        }
        Ok(())
    }

    /// Puts functions to those that were found.
    fn add_all(&mut self, numbers: &[usize]) -> Result<(), AllocError>
        requires { IsListed self.old.marks.items self.old.order.items }
        ensures marks { IfOk result (λ _. self.new.marks.items ≡ with_all numbers.now self.old.marks.items) }
        ensures listed { IfOk result (λ _. IsListed self.new.marks.items self.new.order.items) }
        ensures order { IfOk result (λ _. Keeps self.old.order.items self.new.order.items) }
    {
        for number in numbers {
            self.add(*number)?;
        }
        Ok(())
    }

    /// Puts each function to those that were found that leads to one of them by calls.
    ///
    /// # Errors
    ///
    /// Out of memory.
    pub fn add_callers(&mut self, callers: &[Vec<usize>]) -> Result<(), AllocError>
        requires many { length callers.now ≡ vec_len self.old.marks }
        requires listed { IsListed self.old.marks.items self.old.order.items }
        ensures { IfOk result (λ _. IsSpread (lists callers.now) self.old.marks.items self.new.marks.items) }
    {
        let mut turn = 0;
        while turn < self.order.len() {
            let number = self.order[turn];
            self.add_all(&callers[number])?;
            turn += 1;
        }
        Ok(())
    }

    /// For each function, whether it was not found.
    ///
    /// # Errors
    ///
    /// Out of memory.
    pub fn others(&self, alloc: Global) -> Result<Vec<bool>, AllocError>
        ensures { IfOk result (λ others. others.items ≡ map not self.now.marks.items) }
    {
        let mut others = Vec::new(alloc);
        for is_found in &self.marks {
            others.push(!*is_found)?;
        }
        Ok(others)
    }
}
