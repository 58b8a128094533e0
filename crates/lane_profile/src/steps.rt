//! Steps of a machine, one after another.
ghost use Rattle.std.specs.Prelude.{◌≡◌};
ghost use Rattle.gang_model.specs.Debugger.Debugger.{Debugger, Setting, now};
ghost use Rattle.lane_picture.specs.Runs.{run_end};
ghost use Rattle.lane_picture.specs.Tries.{end_view};
ghost use Rattle.lane_profile.specs.Ran.{HasRun, Tries};

use debug_traits::{RecordedMachine, StepEnd};
use lane_picture::StepsEnd;

/// Does one step after another, so many at most: how the run ends there.
pub fn do_steps<M: RecordedMachine>(machine: &mut M, most_steps: u32) -> StepsEnd
    ensures { (s : Setting) (d : Debugger) → M.stands machine.old s d → HasRun M.stands s most_steps d result machine.new }
{
    for _count in 0..most_steps {
        if let Some(end) = try_step(machine) {
            return end;
        }
    }
    end_after(machine)
}

/// Tries the next step: how the run ended, if it was not done.
pub(crate) fn try_step<M: RecordedMachine>(machine: &mut M) -> Option<StepsEnd>
    ensures { (s : Setting) (d : Debugger) → M.stands machine.old s d → Tries M.stands s d result machine.new }
{
    match machine.step() {
        StepEnd::Done => None,
        StepEnd::Fault(fault) => Some(StepsEnd::AtFault(fault)),
        StepEnd::Ended => Some(StepsEnd::Ended),
    }
}

/// How the run ended where as many steps were done as may be.
pub(crate) fn end_after<M: RecordedMachine>(machine: &M) -> StepsEnd
    ensures { (s : Setting) (d : Debugger) → M.stands machine.now s d → end_view result ≡ run_end s.program 0 (now s d) }
{
    match machine.position() {
        None => StepsEnd::Ended,
        Some(_) => StepsEnd::StepLimit,
    }
}
