//! The accesses of a program with what a run has counted of each.
ghost use Rattle.std.specs.Prelude.{◌≡◌, ℕ, ◌^◌, ◌+◌, true, false, IfOk, Some, [], if◌then◌else◌, option_map, slice_get};
ghost use Rattle.gang_types.specs.declared.places.Spot.{Spot};
ghost use Rattle.gang_types.specs.declared.types.IntType.{IntType};
ghost use Rattle.gang_types.specs.declared.types.Rate.{Rate};
ghost use Rattle.gang_model.specs.Source.Parsed.{ParsedExpr};
ghost use Rattle.gang_model.specs.Running.Value.{value};
ghost use Rattle.gang_model.specs.Debugger.Debugger.{Debugger, Setting, now};
ghost use Rattle.typed_tree.specs.Views.{expr_view, program_view};
ghost use Rattle.debug_traits.specs.Frames.{spot_at, state_at};
ghost use Rattle.frame_expressions.specs.Lanes.{lanes_at};
ghost use Rattle.frame_expressions.specs.Meanings.{Means, entries_at};
ghost use Rattle.element_touches.specs.Counted.{IsFew, none};
ghost use Rattle.element_accesses.specs.Found.{accesses_of};
ghost use Rattle.element_accesses.specs.Rows.{ArePlaced, AreRows, AreSettled, IsNoted, IsNotedOne, IsRow, kept, stands_at};
ghost use Rattle.element_accesses.specs.StepRows.{is_within};
ghost use Rattle.element_accesses.specs.Views.{found_view};
ghost use Rattle.element_accesses.specs.Touched.{with_value};

use crate::finding::accesses_of;
use crate::reading::{Found, Way};
use crate::shown::{array_name, line_at};
use crate::step_rows::{StepRows, Stretch};
use element_touches::{AccessCounts, touched};
use expression_code::compile;
use expression_instructions::Instruction;
use frame_expressions::ExpressionMachine;
use gang_types::{Spot, VarId};
use std::alloc::{AllocError, Global};
use typed_tree::Program;

/// An access of elements of an array whose lanes may touch different ones, in a step of a program.
#[derive(Drop)]
pub struct Access {
    /// The step.
    pub spot: Spot,
    /// Its line.
    pub line: u32,
    pub array: VarId,
    /// The name of the array, as it is declared.
    pub name: Vec<u8>,
    pub way: Way,
    /// Whether all lanes of the step do it; an access that stands behind `&&`, `||` or `?` is not counted.
    pub is_sure: bool,
    /// The code of the index.
    code: Vec<Instruction>,
    /// What is counted of the steps that were done.
    done: AccessCounts,
    /// The same with the step that is tried.
    tried: AccessCounts,
}

impl Access {
    /// What is counted of the steps that were done.
    pub fn counts(&self) -> AccessCounts
        ensures { result ≡ self.now.done }
    {
        self.done
    }

    /// Notes what the access touches where the frame at a depth stands.
    fn note<M: ExpressionMachine>(&mut self, depth: usize, machine: &M)
        ensures others { self.new ≡ record self.old { tried = self.new.tried } }
        ensures few { (most : ℕ) → IsFew most self.old.tried → IsFew (most + 16) self.new.tried }
        ensures tried { (s : Setting) (d : Debugger) (spot : Spot) (written : ParsedExpr) (type : IntType) (rate : Rate) → M.stands machine.now s d
            → spot_at s.program depth (now s d) ≡ Some spot → (means : Means written (entries_at s.program spot) type rate self.old.code.items) → IsFew (2 ^ 40) self.old.tried
            → self.new.tried ≡ with_value (lanes_at depth (now s d)) (value (expr_view means.tree) (lanes_at depth (now s d)) (state_at depth (now s d))) self.old.tried }
    {
        if let Ok(found) = machine.evaluate(depth, &self.code) {
            let elements = touched(found.width, found.lanes, &found.words);
            self.tried = self.tried.and_touch(elements.as_slice());
        }
    }

    /// Notes what the access touches, if it is counted at this step.
    fn note_at<M: ExpressionMachine>(&mut self, depth: usize, spot: Spot, machine: &M)
        ensures { IsNotedOne M.stands machine.now depth spot self.old self.new }
    {
        if stands_at(self, spot) {
            self.note(depth, machine);
        }
    }

    /// Keeps what was noted of a step that is done.
    fn keep(&mut self)
        ensures { self.new ≡ kept self.old }
    {
        self.done = self.tried;
    }
}

/// The accesses of a program whose lanes may touch different elements, with what is counted of each.
#[derive(Drop)]
pub struct Accesses {
    rows: Vec<Access>,
    /// The rows of each step.
    steps: StepRows,
    /// Of the rows that are not among these nothing was noted that was not kept.
    noted: Stretch,
    ghost placed: { ArePlaced steps.functions.items rows.items },
    ghost settled: { AreSettled noted rows.items },
}

impl Accesses {
    /// No access: nothing is counted.
    pub fn none(alloc: Global) -> Self
        ensures { result.rows.items ≡ [] }
    {
        Accesses {
            rows: Vec::new(alloc),
            steps: StepRows::new(alloc),
            noted: Stretch::none(),
        }
    }

    /// The accesses of a program, of which nothing is counted.
    ///
    /// # Errors
    ///
    /// Out of memory.
    pub fn of(alloc: Global, program: &Program) -> Result<Self, AllocError>
        ensures { IfOk result (λ accesses. AreRows program.now accesses.rows.items (accesses_of (program_view program.now))) }
    {
        let rows = rows_of(alloc, program)?;
        let steps = steps_of(alloc, &rows)?;
        Ok(Accesses {
            rows,
            steps,
            noted: Stretch::none(),
        })
    }

    /// The accesses, in the order of the program.
    pub fn rows(&self) -> &[Access]
        ensures { result.now ≡ self.now.rows.items }
    {
        self.rows.as_slice()
    }

    /// Notes what the accesses of a step touch, where the frame at a depth stands, before the step is tried. They count once it is kept.
    pub fn note<M: ExpressionMachine>(&mut self, depth: usize, spot: Spot, machine: &M)
        ensures { (k : ℕ) → IsNoted M.stands machine.now depth spot (slice_get self.old.rows.items k) (slice_get self.new.rows.items k) }
    {
        let of_step = self.steps.of_step(spot.function.0, spot.number);
        self.noted = self.noted.and(of_step);
        note_each(of_step, depth, spot, machine, &mut self.rows);
    }

    /// Keeps what was noted of a step that is done.
    pub fn keep(&mut self)
        ensures { (k : ℕ) → slice_get self.new.rows.items k ≡ option_map kept (slice_get self.old.rows.items k) }
    {
        keep_each(self.noted, &mut self.rows);
        self.noted = Stretch::none();
    }
}

/// The accesses of a program, of which nothing is counted.
fn rows_of(alloc: Global, program: &Program) -> Result<Vec<Access>, AllocError>
    ensures { IfOk result (λ rows. AreRows program.now rows.items (accesses_of (program_view program.now))) }
{
    let found = accesses_of(alloc, program)?;
    let mut rows = Vec::new(alloc);
    for access in &found {
        rows.push(begun(alloc, program, *access)?)?;
    }
    Ok(rows)
}

/// The rows of each step.
fn steps_of(alloc: Global, rows: &[Access]) -> Result<StepRows, AllocError>
    ensures { IfOk result (λ steps. ArePlaced steps.functions.items rows.now) }
{
    let mut steps = StepRows::new(alloc);
    for row in 0..rows.len() {
        let spot = rows[row].spot;
        steps.put(alloc, spot.function.0, spot.number, row)?;
    }
    Ok(steps)
}

/// Notes what those of some accesses touch that are counted at a step.
fn note_each<M: ExpressionMachine>(
    of_step: Stretch,
    depth: usize,
    spot: Spot,
    machine: &M,
    rows: &mut Vec<Access>,
)
    ensures these { (k : ℕ) → is_within of_step k ≡ true → IsNoted M.stands machine.now depth spot (slice_get rows.old.items k) (slice_get rows.new.items k) }
    ensures others { (k : ℕ) → is_within of_step k ≡ false → slice_get rows.new.items k ≡ slice_get rows.old.items k }
{
    for row in of_step.first..of_step.end_among(rows.len()) {
        rows[row].note_at(depth, spot, machine);
    }
}

/// Keeps what was noted of some accesses.
fn keep_each(noted: Stretch, rows: &mut Vec<Access>)
    ensures { (k : ℕ) → slice_get rows.new.items k ≡ (if is_within noted k then option_map kept (slice_get rows.old.items k) else slice_get rows.old.items k) }
{
    for row in noted.first..noted.end_among(rows.len()) {
        rows[row].keep();
    }
}

/// Whether an access is counted at a step.
fn stands_at(access: &Access, spot: Spot) -> bool
    ensures { result ≡ stands_at access.now spot }
{
    access.is_sure && access.spot.number == spot.number && access.spot.function.0 == spot.function.0
}

/// An access with the code of its index.
fn begun(alloc: Global, program: &Program, found: Found<'_>) -> Result<Access, AllocError>
    ensures { IfOk result (λ access. IsRow program.now access (found_view found.entry)) }
{
    Ok(Access {
        spot: found.spot,
        line: line_at(program, found.spot),
        array: found.array,
        name: Vec::from_slice(alloc, array_name(program, found.spot, found.array))?,
        way: found.way,
        is_sure: found.is_sure,
        code: compile(alloc, found.index)?,
        done: AccessCounts::none(),
        tried: AccessCounts::none(),
    })
}
