//! The counts of a run, step by step.
ghost use Rattle.std.specs.Prelude.{◌≡◌, ℕ, suc, ◌+◌, ◌<◌, ◌^◌, ◌==◌, Bool, List, ◌∷◌, Some, IfOk, [], slice_get};
ghost use Rattle.foreach_forms.specs.declared.forms.Form.{Form};
ghost use Rattle.gang_types.specs.Masks.{lanes_of};
ghost use Rattle.lane_counts.specs.Counted.{hits, none};
ghost use Rattle.lane_counts.specs.Naming.{AreDistinct, Extends, HasName, name_at};
ghost use Rattle.lane_counts.specs.declared.names.Names.{Names};
ghost use Rattle.lane_counts.specs.Pending.{IsQuiet, hit, parting_of, width_of};
ghost use Rattle.lane_counts.specs.Steps.{Stand, begins_frame, depth as depth_of};
ghost use Rattle.lane_counts.specs.Tallies.{Follows, HasFrames, IsAt, IsBegun, IsSound, all_with, calls_with, inside_with, line_with, own_with, rounds_with, whole_with};

use crate::counts::Counts;
use crate::forms::FormCounts;
use crate::frames::{Frames, LastStep};
use crate::gang::Gang;
use crate::names::Names;
use crate::table::Table;
use foreach_forms::Form;
use gang_types::{Mask, Spot};
use std::alloc::{AllocError, Global};

/// Where a step stands: its line, which step of the program it is, the name of its function, how many frames there are, and the lanes of the
/// gang that do it.
#[derive(Clone, Copy)]
pub struct StepAt<'a> {
    pub line: usize,
    pub spot: Spot,
    pub function: &'a [u8],
    pub depth: usize,
    pub gang: Gang,
    pub lanes: Mask,
}

/// What is counted of the steps of a run: of all, of each line, of each function, its own steps, those done while a frame of it stands, and its
/// calls, and of each foreach form.
#[derive(Drop)]
pub struct Tally {
    all: Counts,
    lines: Table,
    own: Table,
    whole: Table,
    calls: Table,
    forms: FormCounts,
    names: Names,
    frames: Frames,
    /// How many frames there were at the step that was counted last.
    last_depth: Option<usize>,
}

impl Tally {
    /// Nothing is counted. The forms are those whose steps are to be counted.
    pub fn new(alloc: Global, forms: Vec<Form>) -> Self
        ensures begun { IsBegun result }
        ensures forms { result.forms.forms ≡ forms }
        ensures frames { HasFrames result [] }
    {
        Tally {
            all: Counts::none(),
            lines: Table::new(alloc),
            own: Table::new(alloc),
            whole: Table::new(alloc),
            calls: Table::new(alloc),
            forms: FormCounts::new(alloc, forms),
            names: Names::new(alloc),
            frames: Frames::new(alloc),
            last_depth: None,
        }
    }

    /// What is counted of all steps.
    pub fn all(&self) -> Counts
        ensures { result ≡ self.now.all }
    {
        self.all
    }

    /// What is counted of each line, by its number.
    pub fn lines(&self) -> &[Counts]
        ensures { result.now ≡ self.now.lines.rows.items }
    {
        self.lines.rows()
    }

    /// The functions that were met.
    pub fn names(&self) -> &Names
        ensures { result.now ≡ self.now.names }
    {
        &self.names
    }

    /// What is counted of the own steps of each function, by its number.
    pub fn own(&self) -> &[Counts]
        ensures { result.now ≡ self.now.own.rows.items }
    {
        self.own.rows()
    }

    /// What is counted of the steps while a frame of a function stands, by its number. Partings are not counted.
    pub fn whole(&self) -> &[Counts]
        ensures { result.now ≡ self.now.whole.rows.items }
    {
        self.whole.rows()
    }

    /// What is counted of the calls of each function, by its number: of the first step of each of its frames. Partings are not counted.
    pub fn calls(&self) -> &[Counts]
        ensures { result.now ≡ self.now.calls.rows.items }
    {
        self.calls.rows()
    }

    /// What is counted of the steps inside each foreach form.
    pub fn forms(&self) -> &FormCounts
        ensures { result.now ≡ self.now.forms }
    {
        &self.forms
    }

    /// Puts a frame of a function above the others before any step is counted: it stands where the counting begins.
    ///
    /// # Errors
    ///
    /// Out of memory.
    pub fn enter(&mut self, alloc: Global, function: &[u8]) -> Result<(), AllocError>
        requires { IsBegun self.old }
        ensures begun { IfOk result (λ _. IsBegun self.new) }
        ensures forms { self.new.forms.forms ≡ self.old.forms.forms }
        ensures frames { IfOk result (λ _. (functions : List (List ℕ)) → HasFrames self.old functions → HasFrames self.new (function.now ∷ functions)) }
    {
        let number = self.names.number_of(alloc, function)?;
        self.frames.enter(number)?;
        Ok(())
    }

    /// Counts a step before it is done.
    ///
    /// # Errors
    ///
    /// Out of memory.
    pub fn note(&mut self, alloc: Global, at: StepAt<'_>) -> Result<(), AllocError>
        requires sound { IsSound self.old }
        requires few { self.old.all.steps < 2 ^ 32 }
        ensures lines { IfOk result (λ _. (line : ℕ) (stand : Stand) (later : List Stand) → IsAt at.entry stand
            → line_with self.old line (stand ∷ later) ≡ line_with self.new line later) }
        ensures own { IfOk result (λ _. (final : Names) (number : ℕ) (name : List ℕ) → Extends self.new.names final → AreDistinct final → name_at final number ≡ Some name
            → (stand : Stand) (later : List Stand) → IsAt at.entry stand → own_with self.old number name (stand ∷ later) ≡ own_with self.new number name later) }
        ensures whole { IfOk result (λ _. (final : Names) (number : ℕ) (name : List ℕ) → Extends self.new.names final → AreDistinct final → name_at final number ≡ Some name
            → (stand : Stand) (later : List Stand) → IsAt at.entry stand → Follows self.old stand → whole_with self.old number name (stand ∷ later) ≡ whole_with self.new number name later) }
        ensures calls { IfOk result (λ _. (final : Names) (number : ℕ) (name : List ℕ) → Extends self.new.names final → AreDistinct final → name_at final number ≡ Some name
            → (stand : Stand) (later : List Stand) → IsAt at.entry stand → calls_with self.old number name (stand ∷ later) ≡ calls_with self.new number name later) }
        ensures frames { IfOk result (λ _. (stand : Stand) → IsAt at.entry stand → Follows self.old stand → HasFrames self.new stand.functions) }
        ensures kept { IfOk result (λ _. Extends self.old.names self.new.names) }
        ensures all { IfOk result (λ _. (stand : Stand) (later : List Stand) → IsAt at.entry stand
            → all_with self.old (stand ∷ later) ≡ all_with self.new later) }
        ensures rounds { IfOk result (λ _. (k : ℕ) (form : Form) → slice_get self.old.forms.forms.items k ≡ Some form → (stand : Stand) (later : List Stand) → IsAt at.entry stand
            → rounds_with self.old k form (stand ∷ later) ≡ rounds_with self.new k form later) }
        ensures inside { IfOk result (λ _. (k : ℕ) (form : Form) → slice_get self.old.forms.forms.items k ≡ Some form → (stand : Stand) (later : List Stand) → IsAt at.entry stand
            → inside_with self.old k form (stand ∷ later) ≡ inside_with self.new k form later) }
        ensures forms { self.new.forms.forms ≡ self.old.forms.forms }
        ensures named { IfOk result (λ _. HasName self.new.names at.entry.function.now) }
        ensures sound { IfOk result (λ _. IsSound self.new) }
        ensures steps { IfOk result (λ _. self.new.all.steps ≡ self.old.all.steps + 1) }
    {
        let function = self.names.number_of(alloc, at.function)?;
        let (lanes, width) = (at.gang.count(at.lanes), at.gang.width());
        let step = LastStep {
            line: at.line,
            function,
            gang: at.gang,
            lanes: at.lanes,
        };
        let below = at.depth.saturating_sub(1);
        let before = self.frames.put(below, step)?;
        let parted = parted_from(before, at.gang, at.lanes);
        self.lines.add(at.line, line_of(parted), lanes, width)?;
        self.own.add(function, function_of(parted), lanes, width)?;
        self.whole
            .add_each(self.names.count(), &self.frames, lanes, width)?;
        let is_call = begins_frame(self.last_depth, at.depth);
        self.calls.add_if(is_call, function, lanes, width)?;
        self.last_depth = Some(at.depth);
        self.forms.note(at.spot, lanes, width)?;
        self.all = self.all.noted(parted.is_some(), lanes, width);
        Ok(())
    }
}

/// Whether a step is the first one of its frame, by how many frames there were at the step before it.
fn begins_frame(before: Option<usize>, depth: usize) -> bool
    ensures { (stand : Stand) → depth_of stand ≡ depth → result ≡ begins_frame before stand }
{
    match before {
        Some(deep) => deep < depth,
        None => false,
    }
}

/// The last step of a frame, if its lanes part.
fn parted_from(before: Option<LastStep>, gang: Gang, next: Mask) -> Option<LastStep>
    ensures { (mine : LastStep → Bool) (stand : Stand) (later : List Stand) (deep : ℕ) → depth_of stand ≡ deep → stand.lanes ≡ lanes_of (width_of gang) next
        → parting_of mine deep before (stand ∷ later) ≡ hit mine result }
{
    match before {
        Some(last) if last.parts(gang, next) => before,
        _ => None,
    }
}

fn line_of(last: Option<LastStep>) -> Option<usize>
    ensures { (k : ℕ) → hits result k ≡ hit (λ last. last.line == k) last }
{
    match last {
        Some(last) => Some(last.line),
        None => None,
    }
}

fn function_of(last: Option<LastStep>) -> Option<usize>
    ensures { (k : ℕ) → hits result k ≡ hit (λ last. last.function == k) last }
{
    match last {
        Some(last) => Some(last.function),
        None => None,
    }
}
