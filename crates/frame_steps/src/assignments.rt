//! The steps that write a variable or a result.
ghost use Rattle.std.specs.Prelude.{◌≡◌, ℕ, ◌+◌, ◌<◌, ◌≤◌, false};
ghost use Rattle.gang_types.specs.Lanes.{no_lane};
ghost use Rattle.gang_types.specs.Masks.{IsGangWidth, lanes_of};
ghost use Rattle.codegen.specs.declared.code.StepCode.TheVariants as code;
ghost use Rattle.cross_lane.specs.Calls.{answer_of};
ghost use Rattle.undo_log.specs.declared.timeline.Undone.TheVariants as undone;
ghost use Rattle.typed_tree.specs.Views.{var_view};
ghost use Rattle.machine_states.specs.Effects.{assigned_in, region_of, sent_on};
ghost use Rattle.machine_states.specs.Regions.{Region as ModelRegion};
ghost use Rattle.machine_states.specs.Variables.{IsScalar};
ghost use Rattle.machine_words.specs.Views.{region_view};
ghost use Rattle.machine_words.specs.Words.{AreLaid, left_of, regions_in};
ghost use Rattle.frame_steps.specs.Compiled.{variables_of};
ghost use Rattle.frame_steps.specs.Results.{Returns, changed};
ghost use Rattle.frame_steps.specs.Standing.{AreSound, DoesNext, Ends, Records, SetsValues};

use crate::active::Active;
use crate::compiled::CompiledProgram;
use crate::reading::TopVariables;
use crate::recording::begin;
use crate::sending::send_on;
use crate::values::value_of;
use codegen::Change;
use debug_traits::Fault;
use expression_instructions::{Instruction, Words};
use expression_runs::Stacks;
use gang_types::{FaultName, Mask, Rate, VarId};
use machine_words::{Head, MachineWords, Region};
use masked_operations::{binary, convert};
use typed_tree::Var;
use undo_log::{Timeline, Undone};

/// Where a variable of the file, or of the frame of this number, has its words.
#[inline(always)]
pub fn region_of(frame: usize, variable: VarId) -> Region
    ensures { region_view result ≡ region_of frame variable }
{
    match variable {
        VarId::File(number) => Region::File(number),
        VarId::Local(number) => Region::Local(frame, number),
    }
}

/// A declaration: the variable has its value in the lanes, 0 where it has none, and 0 in the other lanes.
///
/// # Errors
///
/// The first fault of its value, with its lane; then no word is changed and nothing recorded.
pub fn declare<const W: usize, T: Timeline + Drop>(
    compiled: &CompiledProgram,
    active: Active,
    variable: Var,
    value: &Option<Vec<Instruction>>,
    next: usize,
    words: &mut MachineWords<T>,
    stacks: &mut Stacks<W>,
) -> Result<(), Fault>
    requires sound { AreSound T.history W compiled.now words.old }
    requires does { DoesNext W compiled.now (regions_in T.history W words.old) active (code.Declare variable value.now next) }
    ensures { Ends T.history W compiled.now words.old result words.new }
{
    let values = match value {
        Some(value) => value_of(compiled, active, value, words, stacks)?,
        None => [0; W],
    };
    begin::<W, T>(words, Undone::Step);
    let region = region_of(active.frame, variable.id);
    words.declare::<W>(region, variable.rate, active.lanes, values);
    send_on::<W, T>(active.frame, active.level, active.lanes, next, words);
    Ok(())
}

/// An assignment.
///
/// # Errors
///
/// The first fault of its value, with its lane; then no word is changed and nothing recorded.
pub fn assign<const W: usize, T: Timeline + Drop>(
    compiled: &CompiledProgram,
    active: Active,
    variable: Var,
    value: &Vec<Instruction>,
    next: usize,
    words: &mut MachineWords<T>,
    stacks: &mut Stacks<W>,
) -> Result<(), Fault>
    requires sound { AreSound T.history W compiled.now words.old }
    requires does { DoesNext W compiled.now (regions_in T.history W words.old) active (code.Assign variable value.now next) }
    ensures { Ends T.history W compiled.now words.old result words.new }
{
    let values = value_of(compiled, active, value, words, stacks)?;
    assign_values::<W, T>(compiled, active, variable, values, next, words);
    Ok(())
}

/// `target op= value`: the operation is made in its own type, and its value converted back.
///
/// # Errors
///
/// The first fault of its value or of the operation, with its lane; then no word is changed and nothing recorded.
pub fn change<const W: usize, T: Timeline + Drop>(
    compiled: &CompiledProgram,
    active: Active,
    variable: Var,
    change: Change,
    value: &Vec<Instruction>,
    next: usize,
    words: &mut MachineWords<T>,
    stacks: &mut Stacks<W>,
) -> Result<(), Fault>
    requires sound { AreSound T.history W compiled.now words.old }
    requires does { DoesNext W compiled.now (regions_in T.history W words.old) active (code.Change variable change value.now next) }
    ensures { Ends T.history W compiled.now words.old result words.new }
{
    let operands = value_of(compiled, active, value, words, stacks)?;
    let variables = TopVariables::<W, T> {
        words,
        frame: active.frame,
    };
    let old = variables.words(variable);
    let values = match changed(change, active.lanes, old, operands) {
        Ok(values) => values,
        Err((lane, name)) => return Err(Fault { name, lane }),
    };
    assign_values::<W, T>(compiled, active, variable, values, next, words);
    Ok(())
}

/// Assigns values to a scalar, and sends the lanes of the next step on: one event.
#[inline(always)]
fn assign_values<const W: usize, T: Timeline + Drop>(
    compiled: &CompiledProgram,
    active: Active,
    variable: Var,
    values: [u64; W],
    next: usize,
    words: &mut MachineWords<T>,
)
    requires sound { AreSound T.history W compiled.now words.old }
    requires step { SetsValues W compiled.now (regions_in T.history W words.old) active }
    requires scalar { IsScalar (variables_of compiled.now) active.function (var_view variable) }
    ensures assigned { (region : ModelRegion) → regions_in T.history W words.new region
        ≡ sent_on active.frame active.level (lanes_of W active.lanes) (λ k. next)
        (assigned_in active.frame variable.id variable.rate (lanes_of W active.lanes) values.entry (regions_in T.history W words.old)) region }
    ensures recorded { Records T.history W undone.Step words.old words.new }
{
    begin::<W, T>(words, Undone::Step);
    let region = region_of(active.frame, variable.id);
    words.assign::<W>(region, variable.rate, active.lanes, values);
    send_on::<W, T>(active.frame, active.level, active.lanes, next, words);
}

/// What an operation makes of a variable's old words and operands.
#[inline(always)]
pub(crate) fn changed<const W: usize>(
    change: Change,
    lanes: Mask,
    old: [u64; W],
    operands: [u64; W],
) -> Result<[u64; W], (usize, FaultName)>
    requires { IsGangWidth W }
    ensures { answer_of result ≡ changed change (lanes_of W lanes) old.entry operands.entry }
{
    let left = convert(lanes, change.target_type, change.value_type, old);
    let result = binary(lanes, change.operator, change.value_type, left, operands)?;
    Ok(convert(lanes, change.value_type, change.target_type, result))
}

/// `return`: the lanes have their result, 0 where the function has none, and have returned.
///
/// # Errors
///
/// The first fault of its value, with its lane; then no word is changed and nothing recorded.
pub fn finish<const W: usize, T: Timeline + Drop>(
    compiled: &CompiledProgram,
    active: Active,
    value: &Option<Vec<Instruction>>,
    next: usize,
    words: &mut MachineWords<T>,
    stacks: &mut Stacks<W>,
) -> Result<(), Fault>
    requires sound { AreSound T.history W compiled.now words.old }
    requires does { DoesNext W compiled.now (regions_in T.history W words.old) active (code.Return value.now next) }
    ensures { Ends T.history W compiled.now words.old result words.new }
{
    let values = match value {
        Some(value) => value_of(compiled, active, value, words, stacks)?,
        None => [0; W],
    };
    let rate = compiled.program.functions[active.function].result;
    begin::<W, T>(words, Undone::Step);
    give_result::<W, T>(active.frame, rate, active.lanes, values, words);
    send_on::<W, T>(active.frame, active.level, active.lanes, next, words);
    Ok(())
}

/// Gives a frame its result in some lanes, which have returned then.
pub fn give_result<const W: usize, T: Timeline + Drop>(
    frame: usize,
    rate: Rate,
    lanes: Mask,
    values: [u64; W],
    words: &mut MachineWords<T>,
)
    requires width { IsGangWidth W }
    requires laid { AreLaid T.history W words.old }
    requires there { frame < 64 }
    requires lane { no_lane (lanes_of W lanes) ≡ false }
    requires left { W + 1 ≤ left_of T.history T.left words.old }
    ensures { Returns T.history T.left W frame rate lanes values.entry words.old words.new }
{
    words.assign::<W>(Region::Head(frame, Head::Result), rate, lanes, values);
    let returned = Mask::from_word::<W>(words.word::<W>(Region::Head(frame, Head::Returned), 0));
    words.set::<W>(
        Region::Head(frame, Head::Returned),
        0,
        returned.or(lanes).word::<W>(),
    );
}
