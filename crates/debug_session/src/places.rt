//! Where a program stands.
ghost use Rattle.std.specs.Prelude.{◌≡◌};
ghost use Rattle.gang_model.specs.Debugger.Debugger.{Debugger, Setting};
ghost use Rattle.debug_traits.specs.Machines.{depth_of, line_of_position};
ghost use Rattle.debug_session.specs.Moves.{IsReached};
ghost use Rattle.debug_session.specs.Sessions.{bare};

use debug_traits::{Position, RecordedMachine};

/// Where a move has led: the line, unless the program has ended, and how many frames there are.
#[derive(Clone, Copy, Debug)]
pub(crate) struct Reached {
    pub(crate) line: Option<u32>,
    pub(crate) depth: usize,
}

/// Where a machine stands now.
#[inline(always)]
pub(crate) fn reached_by<M: RecordedMachine>(machine: &M) -> Reached
    ensures { (s : Setting) (d : Debugger) → M.stands machine.now s (bare d) → IsReached s d result }
{
    let position = machine.position();
    Reached {
        line: line_of(position),
        depth: depth_of(position),
    }
}

/// The line of a place.
fn line_of(position: Option<Position<'_>>) -> Option<u32>
    ensures { result ≡ line_of_position position.entry }
{
    position.map(|at| at.place.line)
}

/// How many frames there are; a program that has ended counts as depth 1.
pub(crate) fn depth_of(position: Option<Position<'_>>) -> usize
    ensures { result ≡ depth_of position.entry }
{
    position.map_or(1, |at| at.depth)
}
