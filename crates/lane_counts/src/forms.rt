//! The steps inside the foreach forms of a program.
ghost use Rattle.std.specs.Prelude.{◌≡◌, ℕ, ◌≤◌, ◌^◌, ◌&&◌, IfOk, [], length, nat_lt, slice_get};
ghost use Rattle.lane_counts.specs.Counted.{AreFew, counts_at, noted};
ghost use Rattle.lane_counts.specs.Formed.{has_part, is_part};

use crate::counts::Counts;
use crate::table::Table;
use foreach_forms::Form;
use gang_types::Spot;
use std::alloc::{AllocError, Global};

/// Which steps of a form are meant.
#[derive(Clone, Copy, Debug, PartialEq, Eq, Drop)]
pub(crate) enum Part {
    /// Its rounds, each where it begins.
    Rounds,
    /// Its rounds and the steps of its body.
    Inside,
}

impl Part {
    /// Whether a step is one of these.
    fn has(self, form: Form, spot: Spot) -> bool
        ensures { result ≡ is_part self form spot }
    {
        let is_there = match self {
            Part::Rounds => spot.number == form.rounds,
            Part::Inside => form.head < spot.number && spot.number <= form.rounds,
        };
        spot.function.0 == form.function && is_there
    }
}

/// Whether a step is one of these of the form of a number, if there is such a form.
pub(crate) fn has_part(forms: &[Form], number: usize, part: Part, spot: Spot) -> bool
    ensures { result ≡ has_part part (slice_get forms.now number) spot }
{
    match forms.get(number) {
        Some(form) => part.has(*form, spot),
        None => false,
    }
}

/// The foreach forms of a program, and what is counted of the steps inside each.
#[derive(Drop)]
pub struct FormCounts {
    forms: Vec<Form>,
    rounds: Table,
    inside: Table,
}

impl FormCounts {
    pub(crate) fn new(alloc: Global, forms: Vec<Form>) -> Self
        ensures forms { result.forms ≡ forms }
        ensures rounds { result.rounds.rows.items ≡ [] }
        ensures inside { result.inside.rows.items ≡ [] }
    {
        FormCounts {
            forms,
            rounds: Table::new(alloc),
            inside: Table::new(alloc),
        }
    }

    pub fn forms(&self) -> &[Form]
        ensures { result.now ≡ self.now.forms.items }
    {
        self.forms.as_slice()
    }

    /// What is counted of the rounds of each form, by its number. A round is counted where it begins, and partings are not counted.
    pub fn rounds(&self) -> &[Counts]
        ensures { result.now ≡ self.now.rounds.rows.items }
    {
        self.rounds.rows()
    }

    /// What is counted of the steps inside each form, its rounds among them, by its number. Its head is not inside, nor is what is called
    /// there, and partings are not counted.
    pub fn inside(&self) -> &[Counts]
        ensures { result.now ≡ self.now.inside.rows.items }
    {
        self.inside.rows()
    }

    /// Counts a step.
    ///
    /// # Errors
    ///
    /// Out of memory.
    pub(crate) fn note(&mut self, spot: Spot, lanes: usize, width: usize) -> Result<(), AllocError>
        requires rounds_few { AreFew (2 ^ 39) self.old.rounds.rows.items }
        requires inside_few { AreFew (2 ^ 39) self.old.inside.rows.items }
        requires lanes { lanes ≤ 16 }
        ensures forms { self.new.forms ≡ self.old.forms }
        ensures rounds { IfOk result (λ _. (k : ℕ) → counts_at self.new.rounds.rows.items k
            ≡ noted (nat_lt k (length self.old.forms.items) && has_part Part.Rounds (slice_get self.old.forms.items k) spot) lanes width 0 (counts_at self.old.rounds.rows.items k)) }
        ensures inside { IfOk result (λ _. (k : ℕ) → counts_at self.new.inside.rows.items k
            ≡ noted (nat_lt k (length self.old.forms.items) && has_part Part.Inside (slice_get self.old.forms.items k) spot) lanes width 0 (counts_at self.old.inside.rows.items k)) }
    {
        let forms = self.forms.as_slice();
        self.rounds
            .add_forms(forms, Part::Rounds, spot, lanes, width)?;
        self.inside
            .add_forms(forms, Part::Inside, spot, lanes, width)
    }
}
