//! The rows of each step of a program.
ghost use Rattle.std.specs.Prelude.{◌≡◌, ℕ, ◌+◌, ◌<◌, ◌≤◌, ◌^◌, true, IfOk, [], length, slice_get, vec_len};
ghost use Rattle.element_accesses.specs.StepRows.{Keeps, KeepsIn, is_within, nothing, steps_in, stretch_at, stretch_in};

use std::alloc::{AllocError, Global};

/// Rows one after another, from the first one on and before an end.
#[derive(Clone, Copy, Debug, PartialEq, Eq)]
pub(crate) struct Stretch {
    pub first: usize,
    pub end: usize,
}

impl Stretch {
    /// No row.
    pub fn none() -> Self
        ensures { result ≡ nothing }
    {
        Stretch { first: 0, end: 0 }
    }

    /// One row.
    fn one(row: usize) -> Self
        requires { row + 1 < 2 ^ 64 }
        ensures { is_within result row ≡ true }
    {
        Stretch {
            first: row,
            end: row + 1,
        }
    }

    /// The end of those of its rows that are among so many.
    pub fn end_among(self, count: usize) -> usize
        ensures few { (result ≤ self.end) × (result ≤ count) }
        ensures all { (row : ℕ) → row < self.end → row < count → row < result }
    {
        lesser(self.end, count)
    }

    /// The rows of both, and those between them.
    pub fn and(self, other: Self) -> Self
        ensures these { (row : ℕ) → is_within self row ≡ true → is_within result row ≡ true }
        ensures others { (row : ℕ) → is_within other row ≡ true → is_within result row ≡ true }
    {
        if self.first >= self.end {
            return other;
        }
        if other.first >= other.end {
            return self;
        }
        Stretch {
            first: lesser(self.first, other.first),
            end: greater(self.end, other.end),
        }
    }
}

fn lesser(one: usize, other: usize) -> usize
    ensures few { (result ≤ one) × (result ≤ other) }
    ensures all { (number : ℕ) → number < one → number < other → number < result }
{
    if one < other { one } else { other }
}

fn greater(one: usize, other: usize) -> usize
    ensures one { one ≤ result }
    ensures other { other ≤ result }
{
    if one < other { other } else { one }
}

/// The rows of the steps of a function, by the numbers of these.
#[derive(Drop)]
struct FunctionRows {
    steps: Vec<Stretch>,
}

impl FunctionRows {
    fn new(alloc: Global) -> Self
        ensures { result.steps.items ≡ [] }
    {
        FunctionRows {
            steps: Vec::new(alloc),
        }
    }

    fn of_step(&self, number: usize) -> Stretch
        ensures { result ≡ stretch_in self.now.steps.items number }
    {
        match self.steps.get(number) {
            Some(stretch) => *stretch,
            None => Stretch::none(),
        }
    }

    /// Puts a row to those of a step.
    ///
    /// # Errors
    ///
    /// Out of memory.
    fn put(&mut self, number: usize, row: usize) -> Result<(), AllocError>
        requires { row + 1 < 2 ^ 64 }
        ensures kept { IfOk result (λ _. KeepsIn self.old.steps.items self.new.steps.items) }
        ensures there { IfOk result (λ _. is_within (stretch_in self.new.steps.items number) row ≡ true) }
    {
        self.grow(number)?;
        self.steps[number] = self.steps[number].and(Stretch::one(row));
        Ok(())
    }

    /// Makes room for a step.
    fn grow(&mut self, number: usize) -> Result<(), AllocError>
        ensures same { (k : ℕ) → stretch_in self.new.steps.items k ≡ stretch_in self.old.steps.items k }
        ensures room { IfOk result (λ _. number < vec_len self.new.steps) }
    {
        while self.steps.len() <= number {
            self.steps.push(Stretch::none())?;
        }
        Ok(())
    }
}

/// The rows of each step of a program.
#[derive(Drop)]
pub(crate) struct StepRows {
    functions: Vec<FunctionRows>,
}

impl StepRows {
    pub fn new(alloc: Global) -> Self
        ensures { result.functions.items ≡ [] }
    {
        StepRows {
            functions: Vec::new(alloc),
        }
    }

    /// The rows of a step of a function, and it may be others between them.
    pub fn of_step(&self, function: usize, number: usize) -> Stretch
        ensures { result ≡ stretch_at self.now.functions.items function number }
    {
        match self.functions.get(function) {
            Some(rows) => rows.of_step(number),
            None => Stretch::none(),
        }
    }

    /// Puts a row to those of a step of a function.
    ///
    /// # Errors
    ///
    /// Out of memory.
    pub fn put(
        &mut self,
        alloc: Global,
        function: usize,
        number: usize,
        row: usize,
    ) -> Result<(), AllocError>
        requires { row + 1 < 2 ^ 64 }
        ensures kept { IfOk result (λ _. Keeps self.old.functions.items self.new.functions.items) }
        ensures there { IfOk result (λ _. is_within (stretch_at self.new.functions.items function number) row ≡ true) }
    {
        self.grow(alloc, function)?;
        self.functions[function].put(number, row)
    }

    /// Makes room for a function.
    fn grow(&mut self, alloc: Global, function: usize) -> Result<(), AllocError>
        ensures same { (k : ℕ) → steps_in (slice_get self.new.functions.items k) ≡ steps_in (slice_get self.old.functions.items k) }
        ensures room { IfOk result (λ _. function < vec_len self.new.functions) }
    {
        while self.functions.len() <= function {
            self.functions.push(FunctionRows::new(alloc))?;
        }
        Ok(())
    }
}
