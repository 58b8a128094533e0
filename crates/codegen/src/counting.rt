//! How many words the steps of a program set.
ghost use Rattle.std.specs.Prelude.{◌≡◌, ℕ, ◌+◌, ◌*◌, ◌≤◌, map};
ghost use Rattle.gang_types.specs.Masks.{IsGangWidth};
ghost use Rattle.gang_model.specs.Types.Tree.{Program};
ghost use Rattle.machine_states.specs.Cells.{cells_of};
ghost use Rattle.machine_states.specs.WellScoped.{IsWellScopedProgram};
ghost use Rattle.machine_states.specs.Variables.{Variables};
ghost use Rattle.mask_states.specs.Points.{points_in};
ghost use Rattle.codegen.specs.Cells.{most_set, words_set_by};
ghost use Rattle.codegen.specs.Codes.{DoEach};

use crate::code::{Code, StepCode};

/// The most words that one event of a well-scoped program with this code sets, at a width: a step, leaving a frame, or a poke.
pub fn cells(code: &Code, width: usize) -> usize
    requires width { IsGangWidth width }
    requires well_scoped { (variables : Variables) × (most : ℕ) × (program : Program) × IsWellScopedProgram variables most program
        × DoEach code.now.functions.items (map points_in program.functions) }
    ensures exact { (program : Program) → DoEach code.now.functions.items (map points_in program.functions) → result ≡ cells_of width program }
    ensures few { result ≤ 9 * width + 16 }
{
    let mut most = 2 * width + 2;
    for steps in &code.functions {
        most = most.max(most_set(steps, width));
    }
    most
}

/// The most words that one of these steps sets.
fn most_set(steps: &[StepCode], width: usize) -> usize
    requires width { IsGangWidth width }
    requires few { most_set width steps.now ≤ 9 * width + 16 }
    ensures { result ≡ most_set width steps.now }
{
    let mut most = 0;
    for step in steps {
        most = most.max(words_set(step, width));
    }
    most
}

/// How many words a step sets: a scalar, the elements that lanes store to, the numbers that lanes wait for, the values that a form saves
/// and each argument have at most one for each lane; a form of at most three dimensions has its counters too.
fn words_set(step: &StepCode, width: usize) -> usize
    requires width { IsGangWidth width }
    requires few { words_set_by width step.now ≤ 9 * width + 16 }
    ensures { result ≡ words_set_by width step.now }
{
    match step {
        StepCode::Check { .. }
        | StepCode::Go { .. }
        | StepCode::Branch { .. }
        | StepCode::Choose { .. } => width,
        StepCode::Declare { .. }
        | StepCode::Assign { .. }
        | StepCode::Change { .. }
        | StepCode::AssignElement { .. }
        | StepCode::ChangeElement { .. } => 2 * width,
        StepCode::Return { .. } => 2 * width + 1,
        StepCode::PackedStore { .. } | StepCode::PackedLoad { .. } => 3 * width + 1,
        StepCode::Begin { .. } => 3 * width + 11,
        StepCode::Round { .. } => 4 * width + 3,
        StepCode::Enter { args, .. } => args.len() * width + width + 5,
    }
}
