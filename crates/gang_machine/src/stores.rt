//! Which elements of arrays the next step of a machine stores to.
ghost use Rattle.std.specs.Prelude.{◌≡◌, ◌+◌, ◌^◌, ◌<◌, ◌&&◌, true, nat_le, nat_lt, Option as ModelOption};
ghost use Rattle.std.specs.List.{list_any};
ghost use Rattle.gang_types.specs.Masks.{IsGangWidth, lanes_of};
ghost use Rattle.gang_model.specs.Types.Tree.{Expr, Variable};
ghost use Rattle.gang_model.specs.Running.Lanes.{at, members};
ghost use Rattle.gang_model.specs.Running.State.{view_of};
ghost use Rattle.gang_model.specs.Running.Step.{part};
ghost use Rattle.gang_model.specs.Running.Value.{value};
ghost use Rattle.debug_traits.specs.Frames.{state_at};
ghost use Rattle.gang_memory.specs.Packed.{ranks_of};
ghost use Rattle.mask_states.specs.Masked.{Masked};
ghost use Rattle.machine_states.specs.ArrayParts.{view_at};
ghost use Rattle.machine_words.specs.Views.{view_view};
ghost use Rattle.machine_words.specs.Words.{regions_in};
ghost use Rattle.frame_steps.specs.Parts.{HasNextPoint, IsIndexAt, IsPart};
ghost use Rattle.frame_steps.specs.Standing.{AreSound, IsAnswer, IsShown, IsValueAt};
ghost use Rattle.machine_shown.specs.Seen.{IsSeenAt};
ghost use Rattle.frame_expressions.specs.Stores.{elements_from, meets, packed_to};
ghost use Rattle.gang_machine.specs.Stored.{IsFound, IsNextStore, elements_at, written_by};

use codegen::StepCode;
use debug_traits::Fault;
use expression_instructions::Instruction;
use expression_runs::Stop;
use frame_steps::{Active, CompiledProgram, TopVariables, next_step};
use gang_types::{Mask, VarId};
use machine_shown::step_at;
use machine_words::{MachineWords, View, part_from};
use short_expressions::value_of;
use undo_log::Timeline;
use variable_writes::is_same;

/// What lanes are going to store to: each of them an element of a part of an array, by its index in that part.
#[derive(Drop)]
pub(crate) struct Stored<const W: usize> {
    view: View,
    lanes: Mask,
    indices: [u64; W],
}

impl<const W: usize> Stored<W> {
    /// Whether one of the lanes stores to one of so many elements of a part of an array, from the first on.
    pub(crate) fn meets(&self, view: View, first: usize, count: usize) -> bool
        requires { IsGangWidth W }
        ensures { result ≡ meets (elements_from first count (view_view view)) (lanes_of W self.now.lanes) (written_by W self.now) }
    {
        let from = view.first as u128 + first as u128;
        is_same(self.view.array, view.array)
            && is_any_among::<W>(self.lanes, &self.indices, self.view.first, from, count)
    }
}

/// Whether the index of one of the lanes, counted from a first element, is that of one of so many elements.
fn is_any_among<const W: usize>(
    lanes: Mask,
    indices: &[u64; W],
    first: usize,
    from: u128,
    count: usize,
) -> bool
    requires width { IsGangWidth W }
    requires small { from < 2 ^ 65 }
    ensures { result ≡ list_any (λ k. nat_le from (first + at indices.now k) && nat_lt (first + at indices.now k) (from + count)) (members (lanes_of W lanes)) }
{
    for lane in 0..W {
        if lanes.has::<W>(lane)
            && is_among(first as u128 + u128::from(indices[lane]), from, count)
        {
            return true;
        }
    }
    false
}

/// Whether an element is one of so many, of which this is the first.
fn is_among(element: u128, from: u128, count: usize) -> bool
    requires { from < 2 ^ 65 }
    ensures { result ≡ (nat_le from element && nat_lt element (from + count)) }
{
    from <= element && element < from + count as u128
}

/// The part of an array that its name stands for in the frame at a depth.
pub(crate) fn named_view<const W: usize, T: Timeline + Drop>(
    compiled: &CompiledProgram,
    words: &MachineWords<T>,
    depth: usize,
    array: VarId,
) -> View
    requires sound { AreSound T.history W compiled.now words.now }
    ensures { (masked : Masked) (v : Variable) → IsShown T.history W compiled.now words.now masked → IsSeenAt compiled.now depth masked v → v.is_array ≡ true → v.id ≡ array
        → view_view result ≡ view_of (state_at depth masked.state) array }
{
    match step_at::<W, T>(compiled, words, depth) {
        Some(active) => words.view::<W>(active.frame, array),
        // (of no frame: an array of the file, which each frame names alike)
        None => words.view::<W>(0, array),
    }
}

/// What the next step stores to, unless it stores to no elements, or the place that it stores to has a fault.
pub(crate) fn next_store<const W: usize, T: Timeline + Drop>(
    compiled: &CompiledProgram,
    words: &MachineWords<T>,
) -> Option<Stored<W>>
    requires sound { AreSound T.history W compiled.now words.now }
    ensures { (masked : Masked) → IsShown T.history W compiled.now words.now masked → IsNextStore W compiled.now masked result }
{
    let active = next_step::<W, T>(compiled, words)?;
    let code = compiled.steps(active.function).get(active.step)?;
    match code {
        StepCode::AssignElement { array, index, .. } => {
            elements_store(compiled, active, *array, index, words).ok()
        }
        StepCode::ChangeElement { array, index, .. } => {
            elements_store(compiled, active, *array, index, words).ok()
        }
        StepCode::PackedStore { array, from, .. } => {
            packed_store(compiled, active, *array, from, words).ok()
        }
        _ => None,
    }
}

/// What the lanes of the next step store to by an index.
///
/// # Errors
///
/// The first fault of the index.
fn elements_store<const W: usize, T: Timeline + Drop>(
    compiled: &CompiledProgram,
    active: Active,
    array: VarId,
    index: &[Instruction],
    words: &MachineWords<T>,
) -> Result<Stored<W>, Fault>
    requires sound { AreSound T.history W compiled.now words.now }
    requires index { (i : Expr) × IsValueAt W compiled.now (regions_in T.history W words.now) active i index.now }
    ensures { (masked : Masked) (i : Expr) → IsShown T.history W compiled.now words.now masked
        → IsValueAt W compiled.now (regions_in T.history W words.now) active i index.now
        → IsFound W (lanes_of W active.lanes) result (elements_at (view_at (regions_in T.history W words.now) active.frame array) (value i (lanes_of W active.lanes) masked.state)) }
{
    let indices = next_value(compiled, active, index, words)?;
    Ok(Stored {
        view: words.view::<W>(active.frame, array),
        lanes: active.lanes,
        indices,
    })
}

/// What the lanes of the next step store to one after another.
///
/// # Errors
///
/// The first fault of the part of the array.
fn packed_store<const W: usize, T: Timeline + Drop>(
    compiled: &CompiledProgram,
    active: Active,
    array: VarId,
    from: &Option<Vec<Instruction>>,
    words: &MachineWords<T>,
) -> Result<Stored<W>, Fault>
    requires sound { AreSound T.history W compiled.now words.now }
    requires point { HasNextPoint W compiled.now (regions_in T.history W words.now) active }
    requires index { (index : ModelOption Expr) × IsIndexAt W compiled.now (regions_in T.history W words.now) active index from.now }
    ensures { (masked : Masked) (index : ModelOption Expr) → IsShown T.history W compiled.now words.now masked
        → IsIndexAt W compiled.now (regions_in T.history W words.now) active index from.now
        → IsFound W (lanes_of W active.lanes) result (packed_to (lanes_of W active.lanes) (part index (view_at (regions_in T.history W words.now) active.frame array) (lanes_of W active.lanes) masked.state)) }
{
    let view = next_part::<W, T>(compiled, active, array, from, words)?;
    Ok(Stored {
        view,
        lanes: active.lanes,
        indices: ranks(active.lanes),
    })
}

/// The part of an array that the next step names: what the name stands for, or of that the elements from an index on.
///
/// # Errors
///
/// The first fault of the index, then `Index` with the lowest lane of the step whose index is below 0 or past the end.
fn next_part<const W: usize, T: Timeline + Drop>(
    compiled: &CompiledProgram,
    active: Active,
    array: VarId,
    from: &Option<Vec<Instruction>>,
    words: &MachineWords<T>,
) -> Result<View, Fault>
    requires sound { AreSound T.history W compiled.now words.now }
    requires point { HasNextPoint W compiled.now (regions_in T.history W words.now) active }
    requires index { (index : ModelOption Expr) × IsIndexAt W compiled.now (regions_in T.history W words.now) active index from.now }
    ensures { (masked : Masked) (index : ModelOption Expr) → IsShown T.history W compiled.now words.now masked
        → IsIndexAt W compiled.now (regions_in T.history W words.now) active index from.now
        → IsPart result (part index (view_at (regions_in T.history W words.now) active.frame array) (lanes_of W active.lanes) masked.state) }
{
    let whole = words.view::<W>(active.frame, array);
    let Some(index) = from else {
        return Ok(whole);
    };
    let indices = next_value::<W, T>(compiled, active, index, words)?;
    match part_from(whole, active.lanes, &indices) {
        Ok(part) => Ok(part),
        Err((lane, name)) => Err(Fault { name, lane }),
    }
}

/// The value of an expression in the lanes of the next step.
///
/// # Errors
///
/// The first fault with its lane.
fn next_value<const W: usize, T: Timeline + Drop>(
    compiled: &CompiledProgram,
    active: Active,
    code: &[Instruction],
    words: &MachineWords<T>,
) -> Result<[u64; W], Fault>
    requires sound { AreSound T.history W compiled.now words.now }
    requires value { (e : Expr) × IsValueAt W compiled.now (regions_in T.history W words.now) active e code.now }
    ensures { (masked : Masked) (e : Expr) → IsShown T.history W compiled.now words.now masked
        → IsValueAt W compiled.now (regions_in T.history W words.now) active e code.now
        → IsAnswer result (value e (lanes_of W active.lanes) masked.state) }
{
    let variables = TopVariables::<W, T> {
        words,
        frame: active.frame,
    };
    match value_of(code, &variables, active.lanes) {
        Ok(values) => Ok(values),
        Err(Stop::Fault((lane, name))) => Err(Fault { name, lane }),
        Err(Stop::NoRoom) => unreachable!(),
    }
}

/// In each of the lanes how many of them lie below, and 0 in the others.
fn ranks<const W: usize>(lanes: Mask) -> [u64; W]
    requires { IsGangWidth W }
    ensures { result ≡ ranks_of (lanes_of W lanes) }
{
    let mut ranks = [0; W];
    let mut below = 0;
    for lane in 0..W {
        if lanes.has::<W>(lane) {
            ranks[lane] = below;
            below += 1;
        }
    }
    ranks
}
