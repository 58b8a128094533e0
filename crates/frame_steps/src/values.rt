//! The values of expressions at the next step.
ghost use Rattle.std.specs.Prelude.{◌≡◌};
ghost use Rattle.gang_model.specs.Types.Tree.{Expr};
ghost use Rattle.gang_model.specs.Running.Value.{value};
ghost use Rattle.gang_types.specs.Masks.{lanes_of};
ghost use Rattle.machine_words.specs.Words.{regions_in};
ghost use Rattle.mask_states.specs.Masked.{Masked};
ghost use Rattle.frame_steps.specs.Standing.{AreSound, IsAnswer, IsShown, IsValueAt};

use crate::active::Active;
use crate::compiled::CompiledProgram;
use crate::reading::TopVariables;
use debug_traits::Fault;
use expression_instructions::Instruction;
use expression_runs::{Stacks, Stop, evaluate};
use machine_words::MachineWords;
use undo_log::Timeline;

/// The value of an expression in the lanes of the next step.
///
/// # Errors
///
/// The first fault with its lane.
pub fn value_of<const W: usize, T: Timeline + Drop>(
    compiled: &CompiledProgram,
    active: Active,
    code: &[Instruction],
    words: &MachineWords<T>,
    stacks: &mut Stacks<W>,
) -> Result<[u64; W], Fault>
    requires sound { AreSound T.history W compiled.now words.now }
    requires value { (e : Expr) × IsValueAt W compiled.now (regions_in T.history W words.now) active e code.now }
    ensures { (masked : Masked) (e : Expr) → IsShown T.history W compiled.now words.now masked
        → IsValueAt W compiled.now (regions_in T.history W words.now) active e code.now
        → IsAnswer result (value e (lanes_of W active.lanes) masked.state) }
{
    let variables = TopVariables {
        words,
        frame: active.frame,
    };
    match evaluate(code, &variables, active.lanes, stacks) {
        Ok(values) => Ok(values),
        Err(Stop::Fault((lane, name))) => Err(Fault { name, lane }),
        Err(Stop::NoRoom) => unreachable!(),
    }
}
