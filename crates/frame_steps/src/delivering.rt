//! A result is given to what it is for.
ghost use Rattle.std.specs.Prelude.{◌≡◌, ◌+◌, ◌<◌, ◌≤◌, false};
ghost use Rattle.gang_types.specs.Lanes.{no_lane};
ghost use Rattle.gang_types.specs.Masks.{IsGangWidth, lanes_of};
ghost use Rattle.gang_model.specs.Types.Tree.{Function as ModelFunction};
ghost use Rattle.machine_states.specs.Shows.{AreSized};
ghost use Rattle.typed_tree.specs.Views.{result_view};
ghost use Rattle.machine_words.specs.Words.{AreLaid, left_of, regions_in};
ghost use Rattle.frame_steps.specs.Compiled.{variables_of};
ghost use Rattle.frame_steps.specs.Delivering.{GivesResult, TakesResult};

use crate::assignments::{give_result, region_of};
use crate::compiled::CompiledProgram;
use gang_types::{IntType, Mask};
use machine_words::{Head, MachineWords, Region};
use masked_operations::convert;
use typed_tree::ResultFor;
use undo_log::Timeline;

/// Gives values of a type to what a result is for in a frame, by these lanes, converted to its type. At most W + 1 words are set.
pub fn deliver_values<const W: usize, T: Timeline + Drop>(
    compiled: &CompiledProgram,
    frame: usize,
    result_for: ResultFor,
    from_type: IntType,
    lanes: Mask,
    values: [u64; W],
    words: &mut MachineWords<T>,
)
    requires width { IsGangWidth W }
    requires laid { AreLaid T.history W words.old }
    requires sized { AreSized (variables_of compiled.now) W (regions_in T.history W words.old) }
    requires there { frame < 64 }
    requires takes { (g : ModelFunction) × TakesResult compiled.now (regions_in T.history W words.old) frame (result_view result_for) g }
    requires lane { no_lane (lanes_of W lanes) ≡ false }
    requires left { W + 1 ≤ left_of T.history T.left words.old }
    ensures { (g : ModelFunction) → TakesResult compiled.now (regions_in T.history W words.old) frame (result_view result_for) g
        → GivesResult T.history T.left W frame g (result_view result_for) from_type (lanes_of W lanes) values.entry words.old words.new }
{
    match result_for {
        ResultFor::Nothing => {}
        ResultFor::Declares(variable) => {
            let converted = convert(lanes, from_type, variable.value_type, values);
            words.declare::<W>(
                region_of(frame, variable.id),
                variable.rate,
                lanes,
                converted,
            );
        }
        ResultFor::Assigns(variable) => {
            let converted = convert(lanes, from_type, variable.value_type, values);
            words.assign::<W>(
                region_of(frame, variable.id),
                variable.rate,
                lanes,
                converted,
            );
        }
        ResultFor::Returns => {
            let runs = words.word::<W>(Region::Head(frame, Head::Function), 0) as usize;
            let function = &compiled.program.functions[runs];
            let converted = convert(lanes, from_type, function.result_type, values);
            give_result::<W, T>(frame, function.result, lanes, converted, words);
        }
    }
}
