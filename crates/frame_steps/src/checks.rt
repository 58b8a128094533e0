//! `assert`.
ghost use Rattle.gang_types.specs.Masks.{IsGangWidth, lanes_of};
ghost use Rattle.codegen.specs.declared.code.StepCode.TheVariants as code;
ghost use Rattle.machine_words.specs.Words.{regions_in};
ghost use Rattle.frame_steps.specs.Checks.{HoldsInEach};
ghost use Rattle.frame_steps.specs.Standing.{AreSound, DoesNext, Ends};

use crate::active::Active;
use crate::compiled::CompiledProgram;
use crate::recording::begin;
use crate::sending::send_on;
use crate::values::value_of;
use debug_traits::Fault;
use expression_instructions::Instruction;
use expression_runs::Stacks;
use gang_types::{FaultName, Mask};
use machine_words::MachineWords;
use masked_operations::where_false;
use undo_log::{Timeline, Undone};

/// `assert`: its lanes go on where the test holds in each of them.
///
/// # Errors
///
/// The first fault of the test, or `Assert` at the lowest lane of the step in which it does not hold; then no word is changed and
/// nothing recorded.
pub fn check<const W: usize, T: Timeline + Drop>(
    compiled: &CompiledProgram,
    active: Active,
    test: &Vec<Instruction>,
    next: usize,
    words: &mut MachineWords<T>,
    stacks: &mut Stacks<W>,
) -> Result<(), Fault>
    requires sound { AreSound T.history W compiled.now words.old }
    requires does { DoesNext W compiled.now (regions_in T.history W words.old) active (code.Check test.now next) }
    ensures { Ends T.history W compiled.now words.old result words.new }
{
    let values = value_of(compiled, active, test, words, stacks)?;
    hold_in_each(active.lanes, values)?;
    begin::<W, T>(words, Undone::Step);
    send_on::<W, T>(active.frame, active.level, active.lanes, next, words);
    Ok(())
}

/// Whether a test holds in each of these lanes.
///
/// # Errors
///
/// `Assert` at the lowest of them in which it does not.
fn hold_in_each<const W: usize>(lanes: Mask, values: [u64; W]) -> Result<(), Fault>
    requires { IsGangWidth W }
    ensures { HoldsInEach (lanes_of W lanes) values.entry result }
{
    let failing = where_false(lanes, values);
    if failing.is_empty::<W>() {
        return Ok(());
    }
    Err(Fault {
        name: FaultName::Assert,
        lane: failing.lowest::<W>(),
    })
}
