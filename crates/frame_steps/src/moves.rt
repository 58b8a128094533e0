//! The steps that change no variable: `break`, `continue`, and the tests of branches and loops.
ghost use Rattle.std.specs.Prelude.{◌≡◌, ℕ, ◌<◌, slice_index, if◌then◌else◌};
ghost use Rattle.gang_types.specs.Masks.{IsGangWidth};
ghost use Rattle.gang_model.specs.Running.Lanes.{holds};
ghost use Rattle.codegen.specs.declared.code.StepCode.TheVariants as code;
ghost use Rattle.machine_words.specs.Words.{regions_in};
ghost use Rattle.frame_steps.specs.Standing.{AreSound, DoesNext, Ends};

use crate::active::Active;
use crate::compiled::CompiledProgram;
use crate::recording::begin;
use crate::sending::{send_each, send_on};
use crate::values::value_of;
use debug_traits::Fault;
use expression_instructions::Instruction;
use expression_runs::Stacks;
use machine_words::MachineWords;
use undo_log::{Timeline, Undone};

/// `break` or `continue`.
///
/// # Errors
///
/// None: it answers as the other steps do.
pub fn go<const W: usize, T: Timeline + Drop>(
    compiled: &CompiledProgram,
    active: Active,
    next: usize,
    words: &mut MachineWords<T>,
) -> Result<(), Fault>
    requires sound { AreSound T.history W compiled.now words.old }
    requires does { DoesNext W compiled.now (regions_in T.history W words.old) active (code.Go next) }
    ensures { Ends T.history W compiled.now words.old result words.new }
{
    begin::<W, T>(words, Undone::Step);
    send_on::<W, T>(active.frame, active.level, active.lanes, next, words);
    Ok(())
}

/// The test of a branch or of a loop.
///
/// # Errors
///
/// The first fault of the test, with its lane; then no word is changed and nothing recorded.
pub fn branch<const W: usize, T: Timeline + Drop>(
    compiled: &CompiledProgram,
    active: Active,
    test: &Vec<Instruction>,
    ways: (usize, usize),
    words: &mut MachineWords<T>,
    stacks: &mut Stacks<W>,
) -> Result<(), Fault>
    requires sound { AreSound T.history W compiled.now words.old }
    requires does { DoesNext W compiled.now (regions_in T.history W words.old) active (code.Branch test.now ways.0 ways.1) }
    ensures { Ends T.history W compiled.now words.old result words.new }
{
    let values = value_of(compiled, active, test, words, stacks)?;
    begin::<W, T>(words, Undone::Step);
    let targets = targets(&values, ways.0, ways.1);
    send_each::<W, T>(active.frame, active.level, active.lanes, targets, words);
    Ok(())
}

/// Where each lane goes on: by its value one way or the other.
fn targets<const W: usize>(values: &[u64; W], yes: usize, no: usize) -> [u64; W]
    ensures { (lane : ℕ) → lane < W → slice_index result lane ≡ (if holds values.now lane then yes else no) }
{
    let mut targets = [no as u64; W];
    for lane in 0..W {
        if values[lane] != 0 {
            targets[lane] = yes as u64;
        }
    }
    targets
}
