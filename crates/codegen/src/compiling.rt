//! The code of programs.
ghost use Rattle.std.specs.Prelude.{◌≡◌, map, IfOk};
ghost use Rattle.gang_model.specs.Running.RunningOrder.{IsNumberedProgram};
ghost use Rattle.machine_states.specs.Cells.{greatest};
ghost use Rattle.machine_states.specs.Nesting.{most_levels};
ghost use Rattle.mask_lowering.specs.PointViews.{point_view};
ghost use Rattle.mask_lowering.specs.Views.{first_step, points_view};
ghost use Rattle.mask_states.specs.Points.{points_in};
ghost use Rattle.foreach_lowering.specs.FormViews.{form_view, forms_view};
ghost use Rattle.typed_tree.specs.Views.{program_view};
ghost use Rattle.codegen.specs.Codes.{AreRounds, DoAll, DoEach, Fit, HasCode, HaveCode, IsRoundOf, RoundEach};

use crate::code::{Code, StepCode};
use crate::steps::step;
use foreach_lowering::{FunctionForms, lower_rounds};
use mask_lowering::{Masked, Point, lower};
use std::alloc::{AllocError, Global};
use typed_tree::{Program, Rounds};

/// The code of a program whose steps are numbered in running order: for each function that of its points, each step of rounds with the
/// index variables of its form, and its first step; and how many foreach forms stand in one another at most.
///
/// # Errors
///
/// Out of memory.
pub fn compile(alloc: Global, program: &Program) -> Result<Code, AllocError>
    requires numbered { IsNumberedProgram (program_view program.now) }
    ensures code { IfOk result (λ code. DoEach code.functions.items (map points_in (program_view program.now).functions)) }
    ensures rounds { IfOk result (λ code. RoundEach code.functions.items (program_view program.now).functions) }
    ensures entries { IfOk result (λ code. code.entries.items ≡ map first_step (program_view program.now).functions) }
    ensures levels { IfOk result (λ code. code.levels ≡ most_levels (program_view program.now)) }
{
    let masked = lower(alloc, program)?;
    let forms = lower_rounds(alloc, &masked)?;
    let functions = functions(alloc, &masked.functions, &forms)?;
    let levels = most_levels(&forms);
    let Masked {
        functions: _,
        entries,
    } = masked;
    Ok(Code {
        functions,
        entries,
        levels,
    })
}

/// The most forms round one step of a program.
fn most_levels(functions: &[FunctionForms<'_>]) -> usize
    ensures { result ≡ greatest (λ forms. forms.depth) functions.now }
{
    let mut most = 0;
    for forms in functions {
        most = most.max(forms.depth);
    }
    most
}

/// The code of the functions' points.
fn functions(
    alloc: Global,
    lowered: &[Vec<Point<'_>>],
    forms: &[FunctionForms<'_>],
) -> Result<Vec<Vec<StepCode>>, AllocError>
    requires { Fit HaveCode (map points_view lowered.now) (map forms_view forms.now) }
    ensures code { IfOk result (λ made. DoEach made.items (map points_view lowered.now)) }
    ensures rounds { IfOk result (λ made. Fit AreRounds made.items (map forms_view forms.now)) }
{
    let mut made = Vec::with_capacity(alloc, lowered.len())?;
    for (points, forms) in lowered.iter().zip(forms) {
        made.push(steps(alloc, points, &forms.rounds)?)?;
    }
    Ok(made)
}

/// The code of a function's points.
fn steps(
    alloc: Global,
    points: &[Point<'_>],
    forms: &[Option<&Rounds>],
) -> Result<Vec<StepCode>, AllocError>
    requires { Fit HasCode (map point_view points.now) (map form_view forms.now) }
    ensures code { IfOk result (λ made. DoAll made.items (map point_view points.now)) }
    ensures rounds { IfOk result (λ made. Fit IsRoundOf made.items (map form_view forms.now)) }
{
    let mut made = Vec::with_capacity(alloc, points.len())?;
    for (point, form) in points.iter().zip(forms) {
        made.push(step(alloc, point, *form)?)?;
    }
    Ok(made)
}
