//! Steps that store to elements of arrays.
ghost use Rattle.std.specs.Prelude.{◌≡◌, ℕ, IfOk};
ghost use Rattle.gang_types.specs.declared.places.VarId.{VarId};
ghost use Rattle.gang_types.specs.Masks.{lanes_of};
ghost use Rattle.gang_model.specs.Types.Tree.{Expr};
ghost use Rattle.undo_log.specs.declared.timeline.Undone.TheVariants as undone;
ghost use Rattle.gang_memory.specs.Parts.{AreWithin};
ghost use Rattle.mask_states.specs.Masked.{Masked};
ghost use Rattle.machine_states.specs.ArrayParts.{view_at};
ghost use Rattle.machine_states.specs.Effects.{sent_on, stored_in};
ghost use Rattle.machine_states.specs.Regions.{Region as ModelRegion};
ghost use Rattle.codegen.specs.declared.code.StepCode.TheVariants as code;
ghost use Rattle.machine_words.specs.Views.{view_view};
ghost use Rattle.machine_words.specs.Words.{regions_in};
ghost use Rattle.frame_steps.specs.Elements.{IsReached, reached_in};
ghost use Rattle.frame_steps.specs.Standing.{AreSound, DoesNext, Ends, IsShown, IsValueAt, Records, SetsValues};

use crate::active::Active;
use crate::assignments::changed;
use crate::compiled::CompiledProgram;
use crate::recording::begin;
use crate::sending::send_on;
use crate::values::value_of;
use codegen::Change;
use debug_traits::Fault;
use expression_instructions::Instruction;
use expression_runs::Stacks;
use gang_types::VarId;
use machine_words::{MachineWords, View};
use undo_log::{Timeline, Undone};

/// Assigns to elements of an array: of lanes that name one element the highest lane's value stays.
///
/// # Errors
///
/// The first fault of the index, then of the value, then that of an element that is not there, with its lane; then no word is
/// changed and nothing recorded.
pub fn assign_element<const W: usize, T: Timeline + Drop>(
    compiled: &CompiledProgram,
    active: Active,
    array: VarId,
    index: &Vec<Instruction>,
    value: &Vec<Instruction>,
    next: usize,
    words: &mut MachineWords<T>,
    stacks: &mut Stacks<W>,
) -> Result<(), Fault>
    requires sound { AreSound T.history W compiled.now words.old }
    requires does { DoesNext W compiled.now (regions_in T.history W words.old) active (code.AssignElement array index.now value.now next) }
    ensures { Ends T.history W compiled.now words.old result words.new }
{
    let reached = reach(compiled, active, array, index, value, words, stacks)?;
    store::<W, T>(
        compiled,
        active,
        reached.view,
        reached.indices,
        reached.values,
        next,
        words,
    );
    Ok(())
}

/// `target op= value` for elements of an array: the operation is made of the elements as they are in each lane, in its own type, and
/// its value converted back; of lanes that name one element the highest lane's value stays.
///
/// # Errors
///
/// The first fault of the index, then of the operand, then that of an element that is not there, then of the operation, with its
/// lane; then no word is changed and nothing recorded.
pub fn change_element<const W: usize, T: Timeline + Drop>(
    compiled: &CompiledProgram,
    active: Active,
    array: VarId,
    index: &Vec<Instruction>,
    change: Change,
    value: &Vec<Instruction>,
    next: usize,
    words: &mut MachineWords<T>,
    stacks: &mut Stacks<W>,
) -> Result<(), Fault>
    requires sound { AreSound T.history W compiled.now words.old }
    requires does { DoesNext W compiled.now (regions_in T.history W words.old) active (code.ChangeElement array index.now change value.now next) }
    ensures { Ends T.history W compiled.now words.old result words.new }
{
    let before = reach(compiled, active, array, index, value, words, stacks)?;
    let values = match changed(change, active.lanes, before.elements, before.values) {
        Ok(values) => values,
        Err((lane, name)) => return Err(Fault { name, lane }),
    };
    store::<W, T>(
        compiled,
        active,
        before.view,
        before.indices,
        values,
        next,
        words,
    );
    Ok(())
}

/// What a store to elements of an array works on: the part of the array, and for each lane its index, its value, and the element as
/// it is.
#[derive(Drop)]
pub(crate) struct Reached<const W: usize> {
    pub view: View,
    pub indices: [u64; W],
    pub values: [u64; W],
    pub elements: [u64; W],
}

/// The index, the value and the elements of a store by the lanes of the next step.
///
/// # Errors
///
/// The first fault of the index, then of the value, then that of an element that is not there, with its lane.
fn reach<const W: usize, T: Timeline + Drop>(
    compiled: &CompiledProgram,
    active: Active,
    array: VarId,
    index: &[Instruction],
    value: &[Instruction],
    words: &MachineWords<T>,
    stacks: &mut Stacks<W>,
) -> Result<Reached<W>, Fault>
    requires sound { AreSound T.history W compiled.now words.now }
    requires index { (i : Expr) × IsValueAt W compiled.now (regions_in T.history W words.now) active i index.now }
    requires value { (e : Expr) × IsValueAt W compiled.now (regions_in T.history W words.now) active e value.now }
    ensures view { IfOk result (λ reached. view_view reached.view ≡ view_at (regions_in T.history W words.now) active.frame array) }
    ensures there { IfOk result (λ reached. AreWithin (lanes_of W active.lanes) reached.indices reached.view.len) }
    ensures answer { (masked : Masked) (i e : Expr) → IsShown T.history W compiled.now words.now masked
        → IsValueAt W compiled.now (regions_in T.history W words.now) active i index.now
        → IsValueAt W compiled.now (regions_in T.history W words.now) active e value.now
        → IsReached result (reached_in (view_at (regions_in T.history W words.now) active.frame array) i e (lanes_of W active.lanes) masked.state) }
{
    let indices = value_of(compiled, active, index, words, stacks)?;
    let values = value_of(compiled, active, value, words, stacks)?;
    let view = words.view::<W>(active.frame, array);
    match words.elements::<W>(view, active.lanes, indices) {
        Ok(elements) => Ok(Reached {
            view,
            indices,
            values,
            elements,
        }),
        Err((lane, name)) => Err(Fault { name, lane }),
    }
}

/// Stores to elements of an array, which are there, and sends the lanes of the next step on: one event.
fn store<const W: usize, T: Timeline + Drop>(
    compiled: &CompiledProgram,
    active: Active,
    view: View,
    indices: [u64; W],
    values: [u64; W],
    next: usize,
    words: &mut MachineWords<T>,
)
    requires sound { AreSound T.history W compiled.now words.old }
    requires step { SetsValues W compiled.now (regions_in T.history W words.old) active }
    requires view { (array : VarId) × (view_view view ≡ view_at (regions_in T.history W words.old) active.frame array) }
    requires there { AreWithin (lanes_of W active.lanes) indices view.len }
    ensures stored { (region : ModelRegion) → regions_in T.history W words.new region
        ≡ sent_on active.frame active.level (lanes_of W active.lanes) (λ k. next)
        (stored_in (view_view view) (lanes_of W active.lanes) indices.entry values.entry (regions_in T.history W words.old)) region }
    ensures recorded { Records T.history W undone.Step words.old words.new }
{
    begin::<W, T>(words, Undone::Step);
    words.set_elements::<W>(view, active.lanes, indices, values);
    send_on::<W, T>(active.frame, active.level, active.lanes, next, words);
}
