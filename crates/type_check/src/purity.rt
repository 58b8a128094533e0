//! Functions whose lanes are instances of their own.
ghost use Rattle.std.specs.Prelude.{◌≡◌, ◌↔◌, IfOk, IsTrue, Some};
ghost use Rattle.gang_model.specs.Types.Tree.{Program};
ghost use Rattle.gang_model.specs.Types.Resolved.{program_of};
ghost use Rattle.gang_model.specs.Running.LanePure.{IsLanePure};
ghost use Rattle.gang_model.specs.Running.SeparateInstances.{HasSeparateLanes};
ghost use Rattle.source_tree.specs.Tree.{tree_view};
ghost use Rattle.lane_pure.specs.Answers.{AreAnswers};

use crate::checked::Checked;
use gang_types::FuncId;
use lane_pure::{is_pure_in_lanes, pure_functions};
use std::alloc::{AllocError, Global};

/// Whether a function, given by its number among the functions of the source, is lane-pure. If it is, each lane of a call of it
/// does what it does alone, in a gang of any width: it ends with the same result and the same variables of the file.
///
/// # Errors
///
/// Out of memory.
pub fn is_lane_pure(alloc: Global, checked: &Checked, function: FuncId) -> Result<bool, AllocError>
    ensures decides { IfOk result (λ is. (p : Program) → program_of (tree_view checked.now) ≡ Some p → (IsTrue is ↔ IsLanePure (tree_view checked.now) p function.0)) }
    ensures separate { IfOk result (λ is. IsTrue is → HasSeparateLanes (tree_view checked.now) function.0) }
{
    is_pure_in_lanes(alloc, checked.tree(), checked.program(), function)
}

/// For each function, in the order of the source, whether it is lane-pure, as `is_lane_pure` says of one. The time that it takes
/// grows with the source, and not with the number of its functions times that.
///
/// # Errors
///
/// Out of memory.
pub fn lane_pure_functions(alloc: Global, checked: &Checked) -> Result<Vec<bool>, AllocError>
    ensures { IfOk result (λ answers. (p : Program) → program_of (tree_view checked.now) ≡ Some p → AreAnswers (tree_view checked.now) p answers.items) }
{
    pure_functions(alloc, checked.tree(), checked.program())
}
