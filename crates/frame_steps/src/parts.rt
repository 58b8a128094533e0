//! The parts of arrays that a step names.
ghost use Rattle.std.specs.Prelude.{Option as ModelOption, IfOk};
ghost use Rattle.gang_types.specs.Masks.{lanes_of};
ghost use Rattle.gang_model.specs.Types.Tree.{Expr};
ghost use Rattle.gang_model.specs.Running.Step.{part};
ghost use Rattle.mask_states.specs.Masked.{Masked};
ghost use Rattle.machine_states.specs.ArrayParts.{IsInside, view_at};
ghost use Rattle.machine_words.specs.Views.{view_view};
ghost use Rattle.machine_words.specs.Words.{regions_in};
ghost use Rattle.frame_steps.specs.Parts.{HasNextPoint, IsIndexAt, IsPart};
ghost use Rattle.frame_steps.specs.Standing.{AreSound, IsShown};

use crate::active::Active;
use crate::compiled::CompiledProgram;
use crate::values::value_of;
use debug_traits::Fault;
use expression_instructions::Instruction;
use expression_runs::Stacks;
use gang_types::VarId;
use machine_words::{MachineWords, View, part_from};
use undo_log::Timeline;

/// The part of an array that the next step names: what the name stands for, or of that the elements from an index on.
///
/// # Errors
///
/// The first fault of the index, then `Index` with the lowest lane of the step whose index is below 0 or past the end.
pub fn named_part<const W: usize, T: Timeline + Drop>(
    compiled: &CompiledProgram,
    active: Active,
    array: VarId,
    from: &Option<Vec<Instruction>>,
    words: &MachineWords<T>,
    stacks: &mut Stacks<W>,
) -> Result<View, Fault>
    requires sound { AreSound T.history W compiled.now words.now }
    requires point { HasNextPoint W compiled.now (regions_in T.history W words.now) active }
    requires index { (index : ModelOption Expr) × IsIndexAt W compiled.now (regions_in T.history W words.now) active index from.now }
    ensures part { (masked : Masked) (index : ModelOption Expr) → IsShown T.history W compiled.now words.now masked
        → IsIndexAt W compiled.now (regions_in T.history W words.now) active index from.now
        → IsPart result (part index (view_at (regions_in T.history W words.now) active.frame array) (lanes_of W active.lanes) masked.state) }
    ensures inside { IfOk result (λ view. IsInside (regions_in T.history W words.now) (view_view view)) }
{
    let whole = words.view::<W>(active.frame, array);
    let Some(index) = from else {
        return Ok(whole);
    };
    let indices = value_of(compiled, active, index, words, stacks)?;
    match part_from(whole, active.lanes, &indices) {
        Ok(part) => Ok(part),
        Err((lane, name)) => Err(Fault { name, lane }),
    }
}
