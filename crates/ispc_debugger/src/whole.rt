//! A session is opened whose run can be taken back to its first step.
ghost use Rattle.std.specs.Prelude.{◌≡◌, ◌⊎◌, ◌≤◌, ◌^◌, ℕ, List, IfOk, IfErr};
ghost use Rattle.gang_model.specs.Debugger.Debugger.{Setting, fresh};
ghost use Rattle.gang_model.specs.Debugger.Events.{Row};
ghost use Rattle.gang_model.specs.Texts.Transcript.{setting};
ghost use Rattle.gang_model.specs.Types.Tree.{Program as ModelProgram};
ghost use Rattle.debug_session.specs.Sessions.{StandsFor};
ghost use Rattle.gang_machine.specs.Again.{Copies};
ghost use Rattle.gang_machine.specs.Standings.{Stands};
ghost use Rattle.whole_runs.specs.Runs.{StandsWhole};
ghost use Rattle.ispc_options.specs.Ranges.{AreInRange};
ghost use Rattle.ispc_debugger.specs.Runs.{AreAcceptedAs, AreAcceptedOnce, AreNotAccepted, IsRight, asked_of, lanes_of, options_view};
ghost use Rattle.ispc_debugger.specs.Whole.{whole_history};

use crate::opening::open_machine;
use debug_session::Session;
use debug_traits::RecordedMachine;
use gang_machine::Machine;
use ispc_options::Options;
use ispc_refusals::Refusal;
use std::alloc::Global;
use undo_log::DeltaRing;
use whole_runs::WholeRun;

/// A debugger over a program at a width whose run can be taken back to its first step.
pub type WholeSession<const W: usize> = Session<WholeRun<Machine<W, DeltaRing>>>;

/// The history limit of the options that stands for no limit.
const NO_LIMIT: u32 = 65_536;

/// A debugger as `open_session` opens it, but that all events can be taken back, however many there are, where the options have the largest
/// history limit.
///
/// # Errors
///
/// Why there is no such session: the source, the entry that is asked for, the input, in this order, or out of memory.
pub fn open_whole_session<const W: usize>(
    alloc: Global,
    source: &[u8],
    input: &[u8],
    options: &Options<'_>,
) -> Result<WholeSession<W>, Refusal>
    requires width { W ≡ lanes_of options.now.width }
    requires range { AreInRange options.now }
    ensures opened { IfOk result (λ session. (program : ModelProgram) × (entry : ℕ) × (rows : List Row)
        × AreAcceptedAs source.now (asked_of options.now) input.now program entry rows
        × StandsFor (StandsWhole Stands Copies) session (setting program entry rows (options_view options.now)) (fresh (whole_history options.now.history))) }
    // The source and the input have no other program, entry and rows.
    ensures one { AreAcceptedOnce source.now (asked_of options.now) input.now }
    ensures refused { IfErr result (IsRight source.now (asked_of options.now) input.now) }
    // Where they are refused they have none, unless memory ran out.
    ensures none { IfErr result (λ refusal. (refusal ≡ Refusal.Memory) ⊎ AreNotAccepted source.now (asked_of options.now) input.now) }
{
    let machine = open_machine::<W>(alloc, source, input, options)?;
    let run = match WholeRun::begin(alloc, machine) {
        Err(_) => return Err(Refusal::Memory),
        Ok(run) => run,
    };
    let run = limited::<W>(run, options.history)?;
    Ok(Session::open(run, options.steps))
}

/// A run at its start of which as many events can be taken back as the options say.
fn limited<const W: usize>(
    run: WholeRun<Machine<W, DeltaRing>>,
    history: u32,
) -> Result<WholeRun<Machine<W, DeltaRing>>, Refusal>
    requires { (1 ≤ history) × (history ≤ 65536) }
    ensures stands { IfOk result (λ limited. (s : Setting) → StandsWhole Stands Copies run.entry s (fresh (2 ^ 62)) → StandsWhole Stands Copies limited s (fresh (whole_history history))) }
    ensures refused { IfErr result (λ refusal. refusal ≡ Refusal.Memory) }
{
    if history == NO_LIMIT {
        return Ok(run);
    }
    let mut run = run;
    match run.set_limit(history as usize) {
        Ok(()) => Ok(run),
        Err(_) => Err(Refusal::Memory),
    }
}
