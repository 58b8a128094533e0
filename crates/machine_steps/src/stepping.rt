//! One step.
ghost use Rattle.frame_steps.specs.Standing.{AreSound, DoesNext, Ends, IsShown, Steps};
ghost use Rattle.machine_words.specs.Words.{regions_in};
ghost use Rattle.mask_states.specs.Masked.{Masked};
ghost use Rattle.machine_steps.specs.Stepping.{IsPacked, IsWrite};

use crate::calls::enter;
use crate::leaving::leave;
use codegen::StepCode;
use debug_traits::{Fault, StepEnd};
use expression_runs::Stacks;
use frame_steps::{
    Active, CompiledProgram, assign, assign_element, branch, change, change_element, check, choose,
    declare, finish, go, load_packed, next_step, store_packed,
};
use machine_rounds::{begin_form, take_round};
use machine_words::MachineWords;
use undo_log::Timeline;

/// Does the next step and records it. A fault and the end change nothing.
pub fn step<const W: usize, T: Timeline + Drop>(
    compiled: &CompiledProgram,
    words: &mut MachineWords<T>,
    stacks: &mut Stacks<W>,
) -> StepEnd
    requires sound { AreSound T.history W compiled.now words.old }
    ensures steps { (masked : Masked) → IsShown T.history W compiled.now words.old masked → Steps T.history W compiled.now masked words.old result words.new }
    ensures sound { AreSound T.history W compiled.now words.new }
{
    let Some(active) = next_step::<W, T>(compiled, words) else {
        return StepEnd::Ended;
    };
    let Some(code) = compiled.steps(active.function).get(active.step) else {
        leave::<W, T>(compiled, active, words);
        return StepEnd::Done;
    };
    match perform(compiled, active, code, words, stacks) {
        Ok(()) => StepEnd::Done,
        Err(fault) => StepEnd::Fault(fault),
    }
}

/// Does the next step by its code: where lanes go, or what is written.
fn perform<const W: usize, T: Timeline + Drop>(
    compiled: &CompiledProgram,
    active: Active,
    code: &StepCode,
    words: &mut MachineWords<T>,
    stacks: &mut Stacks<W>,
) -> Result<(), Fault>
    requires sound { AreSound T.history W compiled.now words.old }
    requires does { DoesNext W compiled.now (regions_in T.history W words.old) active code.now }
    ensures { Ends T.history W compiled.now words.old result words.new }
{
    match code {
        StepCode::Check { test, next } => check(compiled, active, test, *next, words, stacks),
        StepCode::Return { value, next } => finish(compiled, active, value, *next, words, stacks),
        StepCode::Go { next } => go::<W, T>(compiled, active, *next, words),
        StepCode::Branch { test, yes, no } => {
            branch(compiled, active, test, (*yes, *no), words, stacks)
        }
        StepCode::Choose {
            selector,
            segments,
            next,
        } => choose(compiled, active, selector, segments, *next, words, stacks),
        StepCode::Begin { form, rounds, next } => {
            begin_form(compiled, active, form, *rounds, *next, words, stacks)
        }
        StepCode::Round { body, .. } => take_round::<W, T>(compiled, active, *body, words),
        StepCode::Enter { function, args, .. } => {
            enter(compiled, active, *function, args, words, stacks)
        }
        _ => write(compiled, active, code, words, stacks),
    }
}

/// Does a step that writes a variable or elements.
fn write<const W: usize, T: Timeline + Drop>(
    compiled: &CompiledProgram,
    active: Active,
    code: &StepCode,
    words: &mut MachineWords<T>,
    stacks: &mut Stacks<W>,
) -> Result<(), Fault>
    requires sound { AreSound T.history W compiled.now words.old }
    requires does { DoesNext W compiled.now (regions_in T.history W words.old) active code.now }
    requires writes { IsWrite code.now }
    ensures { Ends T.history W compiled.now words.old result words.new }
{
    match code {
        StepCode::Declare {
            variable,
            value,
            next,
        } => declare(compiled, active, *variable, value, *next, words, stacks),
        StepCode::Assign {
            variable,
            value,
            next,
        } => assign(compiled, active, *variable, value, *next, words, stacks),
        StepCode::Change {
            variable,
            change: operation,
            value,
            next,
        } => change(
            compiled, active, *variable, *operation, value, *next, words, stacks,
        ),
        StepCode::AssignElement {
            array,
            index,
            value,
            next,
        } => assign_element(compiled, active, *array, index, value, *next, words, stacks),
        StepCode::ChangeElement {
            array,
            index,
            change: operation,
            value,
            next,
        } => change_element(
            compiled, active, *array, index, *operation, value, *next, words, stacks,
        ),
        _ => move_packed(compiled, active, code, words, stacks),
    }
}

/// Does a packed store or a packed load.
fn move_packed<const W: usize, T: Timeline + Drop>(
    compiled: &CompiledProgram,
    active: Active,
    code: &StepCode,
    words: &mut MachineWords<T>,
    stacks: &mut Stacks<W>,
) -> Result<(), Fault>
    requires sound { AreSound T.history W compiled.now words.old }
    requires does { DoesNext W compiled.now (regions_in T.history W words.old) active code.now }
    requires packed { IsPacked code.now }
    ensures { Ends T.history W compiled.now words.old result words.new }
{
    match code {
        StepCode::PackedStore {
            array,
            from,
            value,
            result_for,
            next,
        } => store_packed(
            compiled,
            active,
            *array,
            from,
            value,
            *result_for,
            *next,
            words,
            stacks,
        ),
        StepCode::PackedLoad {
            array,
            from,
            into,
            result_for,
            next,
        } => load_packed(
            compiled,
            active,
            *array,
            from,
            *into,
            *result_for,
            *next,
            words,
            stacks,
        ),
        _ => unreachable!(),
    }
}
