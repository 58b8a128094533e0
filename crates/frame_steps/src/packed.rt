//! The steps that run the packed calls.
ghost use Rattle.std.specs.Prelude.{◌≡◌, ◌+◌, ◌<◌, ◌≤◌, false};
ghost use Rattle.gang_types.specs.declared.types.IntType.TheVariants.{Int32};
ghost use Rattle.gang_types.specs.Lanes.{no_lane};
ghost use Rattle.gang_types.specs.Masks.{IsGangWidth, lanes_of};
ghost use Rattle.gang_model.specs.Types.Tree.{Function as ModelFunction};
ghost use Rattle.machine_states.specs.Shows.{AreSized};
ghost use Rattle.codegen.specs.declared.code.StepCode.TheVariants as code;
ghost use Rattle.typed_tree.specs.Views.{result_view};
ghost use Rattle.machine_words.specs.Words.{AreLaid, left_of, regions_in};
ghost use Rattle.frame_steps.specs.Compiled.{variables_of};
ghost use Rattle.frame_steps.specs.Delivering.{GivesResult, TakesResult};
ghost use Rattle.frame_steps.specs.Parts.{counts_of};
ghost use Rattle.frame_steps.specs.Standing.{AreSound, DoesNext, Ends};

use crate::active::Active;
use crate::assignments::region_of;
use crate::compiled::CompiledProgram;
use crate::delivering::deliver_values;
use crate::parts::named_part;
use crate::recording::begin;
use crate::sending::send_on;
use crate::values::value_of;
use debug_traits::Fault;
use expression_instructions::Instruction;
use expression_runs::Stacks;
use gang_types::{IntType, VarId};
use machine_words::MachineWords;
use typed_tree::{ResultFor, Var};
use undo_log::{Timeline, Undone};

/// `packed_store_active`: the lanes of the step, from the lowest on, store their values to the first elements of a part of an array.
/// The result is how many lanes they are.
///
/// # Errors
///
/// The first fault of the part, then of the value, then `Index` with the lowest lane whose element is not there; then no word is
/// changed and nothing recorded.
pub fn store_packed<const W: usize, T: Timeline + Drop>(
    compiled: &CompiledProgram,
    active: Active,
    array: VarId,
    from: &Option<Vec<Instruction>>,
    value: &Vec<Instruction>,
    result_for: ResultFor,
    next: usize,
    words: &mut MachineWords<T>,
    stacks: &mut Stacks<W>,
) -> Result<(), Fault>
    requires sound { AreSound T.history W compiled.now words.old }
    requires does { DoesNext W compiled.now (regions_in T.history W words.old) active (code.PackedStore array from.now value.now result_for next) }
    ensures { Ends T.history W compiled.now words.old result words.new }
{
    let view = named_part(compiled, active, array, from, words, stacks)?;
    let values = value_of(compiled, active, value, words, stacks)?;
    if let Err((lane, name)) = words.packed_elements::<W>(view, active.lanes) {
        return Err(Fault { name, lane });
    }
    begin::<W, T>(words, Undone::Step);
    words.set_packed::<W>(view, active.lanes, values);
    give_count::<W, T>(compiled, active, result_for, words);
    send_on::<W, T>(active.frame, active.level, active.lanes, next, words);
    Ok(())
}

/// `packed_load_active`: the lanes of the step, from the lowest on, get the first elements of a part of an array in a variable, which
/// has them before the result is given: how many lanes they are.
///
/// # Errors
///
/// The first fault of the part, then `Index` with the lowest lane whose element is not there; then no word is changed and nothing
/// recorded.
pub fn load_packed<const W: usize, T: Timeline + Drop>(
    compiled: &CompiledProgram,
    active: Active,
    array: VarId,
    from: &Option<Vec<Instruction>>,
    into: Var,
    result_for: ResultFor,
    next: usize,
    words: &mut MachineWords<T>,
    stacks: &mut Stacks<W>,
) -> Result<(), Fault>
    requires sound { AreSound T.history W compiled.now words.old }
    requires does { DoesNext W compiled.now (regions_in T.history W words.old) active (code.PackedLoad array from.now into result_for next) }
    ensures { Ends T.history W compiled.now words.old result words.new }
{
    let view = named_part(compiled, active, array, from, words, stacks)?;
    let values = match words.packed_elements::<W>(view, active.lanes) {
        Ok(values) => values,
        Err((lane, name)) => return Err(Fault { name, lane }),
    };
    begin::<W, T>(words, Undone::Step);
    let region = region_of(active.frame, into.id);
    words.assign::<W>(region, into.rate, active.lanes, values);
    give_count::<W, T>(compiled, active, result_for, words);
    send_on::<W, T>(active.frame, active.level, active.lanes, next, words);
    Ok(())
}

/// Gives the number of the step's lanes to what a result is for. At most W + 1 words are set.
fn give_count<const W: usize, T: Timeline + Drop>(
    compiled: &CompiledProgram,
    active: Active,
    result_for: ResultFor,
    words: &mut MachineWords<T>,
)
    requires width { IsGangWidth W }
    requires laid { AreLaid T.history W words.old }
    requires sized { AreSized (variables_of compiled.now) W (regions_in T.history W words.old) }
    requires there { active.frame < 64 }
    requires takes { (g : ModelFunction) × TakesResult compiled.now (regions_in T.history W words.old) active.frame (result_view result_for) g }
    requires lane { no_lane (lanes_of W active.lanes) ≡ false }
    requires left { W + 1 ≤ left_of T.history T.left words.old }
    ensures { (g : ModelFunction) → TakesResult compiled.now (regions_in T.history W words.old) active.frame (result_view result_for) g
        → GivesResult T.history T.left W active.frame g (result_view result_for) Int32 (lanes_of W active.lanes) (counts_of (lanes_of W active.lanes)) words.old words.new }
{
    let count = active.lanes.count::<W>() as u64;
    deliver_values::<W, T>(
        compiled,
        active.frame,
        result_for,
        IntType::Int32,
        active.lanes,
        [count; W],
        words,
    );
}
