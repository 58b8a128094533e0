//! `switch`: its lanes go on where their segments begin.
ghost use Rattle.std.specs.Prelude.{◌≡◌, ℕ, ◌<◌, List, slice_index};
ghost use Rattle.gang_types.specs.Masks.{IsGangWidth};
ghost use Rattle.gang_model.specs.Types.Tree.{StepNumber, Stmt};
ghost use Rattle.mask_states.specs.MaskedStep.{chosen, segment_of};
ghost use Rattle.codegen.specs.Codes.{AreSegments};
ghost use Rattle.codegen.specs.declared.code.StepCode.TheVariants as code;
ghost use Rattle.machine_words.specs.Words.{regions_in};
ghost use Rattle.frame_steps.specs.Standing.{AreSound, DoesNext, Ends};

use crate::active::Active;
use crate::compiled::CompiledProgram;
use crate::recording::begin;
use crate::sending::send_each;
use crate::values::value_of;
use codegen::SegmentCode;
use debug_traits::Fault;
use expression_instructions::Instruction;
use expression_runs::Stacks;
use machine_words::MachineWords;
use undo_log::{Timeline, Undone};

/// A `switch`.
///
/// # Errors
///
/// The first fault of the selector, with its lane; then no word is changed and nothing recorded.
pub fn choose<const W: usize, T: Timeline + Drop>(
    compiled: &CompiledProgram,
    active: Active,
    selector: &Vec<Instruction>,
    segments: &Vec<SegmentCode>,
    next: usize,
    words: &mut MachineWords<T>,
    stacks: &mut Stacks<W>,
) -> Result<(), Fault>
    requires sound { AreSound T.history W compiled.now words.old }
    requires does { DoesNext W compiled.now (regions_in T.history W words.old) active (code.Choose selector.now segments.now next) }
    ensures { Ends T.history W compiled.now words.old result words.new }
{
    let values = value_of(compiled, active, selector, words, stacks)?;
    begin::<W, T>(words, Undone::Step);
    let targets = entries(&values, segments, next);
    send_each::<W, T>(active.frame, active.level, active.lanes, targets, words);
    Ok(())
}

/// Where each lane goes on, by the selector's values.
fn entries<const W: usize>(values: &[u64; W], segments: &[SegmentCode], next: usize) -> [u64; W]
    ensures { (labelled : Stmt) (entries : List StepNumber) → AreSegments segments.now labelled entries → (lane : ℕ) → lane < W → slice_index result lane ≡ chosen entries next (segment_of labelled (slice_index values.now lane)) }
{
    let mut targets = [next as u64; W];
    for lane in 0..W {
        targets[lane] = entry(values[lane], segments, next) as u64;
    }
    targets
}

/// Where a lane with this value goes on: at the first segment whose label it is, else at `default`, else behind the switch.
fn entry(value: u64, segments: &[SegmentCode], next: usize) -> usize
    ensures { (labelled : Stmt) (entries : List StepNumber) → AreSegments segments.now labelled entries → result ≡ chosen entries next (segment_of labelled value) }
{
    let mut default = None;
    for segment in segments {
        match segment.label {
            Some(label) => {
                if label == value {
                    return segment.entry;
                }
            }
            None => default = default.or(Some(segment.entry)),
        }
    }
    default.unwrap_or(next)
}
