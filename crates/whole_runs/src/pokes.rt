//! A value that is set in the frame at a depth, or in the top one.
ghost use Rattle.std.specs.Prelude.{◌≡◌, true, is_err};
ghost use Rattle.gang_model.specs.Types.Tree.{Variable};
ghost use Rattle.gang_model.specs.Debugger.Debugger.{Debugger, Setting};
ghost use Rattle.debug_traits.specs.Machines.{IsPart};
ghost use Rattle.whole_runs.specs.Pokes.{IsShownIn, PokesInOrNot};

use debug_traits::{FramedMachine, Shown};
use std::alloc::AllocError;

/// Sets a value in the frame at a depth, or in the top one where no depth is given.
///
/// # Errors
///
/// Out of memory, of a machine that may want for it, and then nothing changes.
pub(crate) fn poke_in<M: FramedMachine>(
    machine: &mut M,
    depth: Option<usize>,
    shown: Shown,
    at: Option<u32>,
    word: u64,
) -> Result<(), AllocError>
    ensures poke { (s : Setting) (d : Debugger) (v : Variable) → M.stands machine.old s d → IsShownIn depth s d v shown → IsPart at shown
        → PokesInOrNot depth M.stands s d v shown at word result machine.new }
    ensures memory { is_err result ≡ true → M.may_want }
    ensures run { M.same_run machine.old machine.new }
    ensures moves { M.moves machine.new ≡ M.moves machine.old }
{
    match depth {
        None => machine.poke(shown, at, word),
        Some(deep) => machine.poke_at(deep, shown, at, word),
    }
}
