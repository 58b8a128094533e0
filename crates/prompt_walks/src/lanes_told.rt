//! The share of the active lanes of the steps so far.
ghost use Rattle.std.specs.Prelude.{◌≡◌, ℕ, ◌+◌, ◌≤◌, ◌<◌, ◌^◌, ◌∷◌, true, List, Option, Some};
ghost use Rattle.gang_types.specs.Masks.{lanes_of};
ghost use Rattle.gang_model.specs.Types.Tree.{Program};
ghost use Rattle.gang_model.specs.Debugger.Debugger.{Debugger, DoStep, Setting, do_command, has_ended, kept_steps, now};
ghost use Rattle.command_lists.specs.Lists.{HasDone};
ghost use Rattle.debug_session.specs.Sessions.{StandsFor};
ghost use Rattle.lane_counts.specs.Counted.{IsFew, noted};
ghost use Rattle.lane_counts.specs.Pending.{width_of};
ghost use Rattle.lane_counts.specs.Steps.{Stand, active};
ghost use Rattle.lane_counts.specs.Tallies.{IsAt};
ghost use Rattle.lane_profile.specs.Stands.{stand_of, stands_of};
ghost use Rattle.prompt_lines.specs.Words.{is_alone as stands_alone};
ghost use Rattle.prompt_texts.specs.LaneShares.{here_text};
ghost use Rattle.prompt_texts.specs.Shown.{Puts};
ghost use Rattle.prompt_scenes.specs.Holding.{held};
ghost use Rattle.prompt_scenes.specs.Readings as readings;
ghost use Rattle.prompt_moves.specs.Moments as moments;
ghost use Rattle.prompt_walks.specs.LanesTold.{Chooses, ChoosesAt, ChoosesTop, IsFewSoFar, TellsSoFar};
ghost use Rattle.prompt_walks.specs.Walks as walks;
ghost use Rattle.prompt_walks.specs.LanesTold as lanes;

use crate::asking::{is_known, tell_unknown_moments};
use debug_commands::Command;
use debug_session::Session;
use debug_traits::AnswerWriter;
use frame_expressions::ExpressionMachine;
use lane_counts::{Counts, StepAt, lost, share};
use lane_profile::{name_of, next_step};
use prompt_lines::is_alone;
use prompt_moves::move_to;
use prompt_scenes::{Holding, Scene, is_here, selected_depth};
use prompt_texts::{LaneShare, Page, SharesHere, show_lanes, tell_usage};

/// What may follow `info lanes`.
const LANES: &[u8] =
    b"`info lanes` stands alone: it tells the share of the active lanes of the steps so far, of the line and the function of the frame that is selected, and of the run.";

/// The line and the function whose steps are counted by themselves, the function by its number.
#[derive(Clone, Copy)]
pub(crate) struct Chosen {
    line: usize,
    function: usize,
}

/// What was counted of some steps: of those of a line, of those of a function, and of all; and how many lanes the gang of the last of them
/// has, 0 before the first.
#[derive(Clone, Copy)]
pub(crate) struct SoFar {
    line: Counts,
    function: Counts,
    all: Counts,
    width: usize,
}

impl SoFar {
    /// Nothing was counted.
    fn none() -> Self
        ensures begun { (chosen : Option Chosen) (p : Program) (stands : List Stand) → lanes.with_later p chosen result stands ≡ lanes.counted p chosen stands }
        ensures few { IsFewSoFar 0 result }
    {
        let none = Counts::none();
        SoFar {
            line: none,
            function: none,
            all: none,
            width: 0,
        }
    }

    /// With a step more.
    fn and_step(self, at: StepAt<'_>, of_line: bool, of_function: bool) -> Self
        ensures counted { IsFewSoFar (2 ^ 40) self → (p : Program) (chosen : Option Chosen) (stand : Stand) (later : List Stand) → IsAt at.entry stand
            → of_line ≡ lanes.of_line chosen stand → of_function ≡ lanes.of_function p chosen stand
            → lanes.with_later p chosen self (stand ∷ later) ≡ lanes.with_later p chosen result later }
        ensures few { (n : ℕ) → IsFewSoFar n self → n ≤ 2 ^ 40 → IsFewSoFar (n + 16) result }
    {
        let line = and_step_if(of_line, self.line, at);
        let function = and_step_if(of_function, self.function, at);
        let all = and_step_if(true, self.all, at);
        let width = at.gang.width();
        SoFar {
            line,
            function,
            all,
            width,
        }
    }
}

/// Counts with a step more, if it is one of those that are counted.
fn and_step_if(is_counted: bool, counts: Counts, at: StepAt<'_>) -> Counts
    ensures { IsFew (2 ^ 40) counts → result ≡ noted is_counted (active (lanes_of (width_of at.entry.gang) at.entry.lanes)) (width_of at.entry.gang) 0 counts }
{
    if is_counted {
        counts.and_step(at.gang, at.lanes)
    } else {
        counts
    }
}

/// Tells the share of the active lanes of the steps so far. The program stands where it stood.
pub fn tell_lanes<M: ExpressionMachine, O: AnswerWriter + Drop>(
    text: &[u8],
    holding: &Holding,
    scene: Scene<'_>,
    session: &mut Session<M>,
    page: &mut Page<O>,
)
    ensures done { (s : Setting) (d : Debugger) → StandsFor M.stands session.old s d → HasDone M.stands s (walks.lanes_by s d text.now) d session.new }
    ensures told { (s : Setting) (d : Debugger) → StandsFor M.stands session.old s d → stands_alone text.now ≡ true → TellsSoFar s d (held holding.now) page.old.has_failed page.new.has_failed (O.written page.old.writer) (O.written page.new.writer) }
{
    if is_alone(text) {
        tell_if_known(holding, session, page);
    } else {
        tell_usage(LANES, scene.line, page);
    }
}

/// Tells them where single steps lead to each moment of the run and back.
fn tell_if_known<M: ExpressionMachine, O: AnswerWriter + Drop>(
    holding: &Holding,
    session: &mut Session<M>,
    page: &mut Page<O>,
)
    ensures done { (s : Setting) (d : Debugger) → StandsFor M.stands session.old s d → HasDone M.stands s (walks.walked_so_far s d) d session.new }
    ensures told { (s : Setting) (d : Debugger) → StandsFor M.stands session.old s d → TellsSoFar s d (held holding.now) page.old.has_failed page.new.has_failed (O.written page.old.writer) (O.written page.new.writer) }
{
    if is_known(session) {
        tell_counted(holding, session, page);
    } else {
        tell_unknown_moments(session, page);
    }
}

/// Counts the steps so far, and tells the shares.
fn tell_counted<M: ExpressionMachine, O: AnswerWriter + Drop>(
    holding: &Holding,
    session: &mut Session<M>,
    page: &mut Page<O>,
)
    ensures done { (s : Setting) (d : Debugger) → StandsFor M.stands session.old s d → HasDone M.stands s (moments.walked (kept_steps d) s d) d session.new }
    ensures told { (s : Setting) (d : Debugger) → StandsFor M.stands session.old s d → TellsSoFar s d (held holding.now) page.old.has_failed page.new.has_failed (O.written page.old.writer) (O.written page.new.writer) }
{
    let chosen = chosen_here(holding, session);
    let so_far = count_so_far(chosen, session);
    show_so_far(chosen, so_far, session.machine(), page);
}

/// The line and the function of the frame that is selected, unless the program has ended.
fn chosen_here<M: ExpressionMachine>(holding: &Holding, session: &Session<M>) -> Option<Chosen>
    ensures { (s : Setting) (d : Debugger) → StandsFor M.stands session.now s d → Chooses s d (held holding.now) result }
{
    let machine = session.machine();
    if holding.is_top() {
        chosen_top(machine)
    } else {
        chosen_at(selected_depth(holding, session), machine)
    }
}

/// Those of the top frame.
fn chosen_top<M: ExpressionMachine>(machine: &M) -> Option<Chosen>
    ensures { (s : Setting) (d : Debugger) → M.stands machine.now s d → ChoosesTop s.program (now s d) result }
{
    match next_step(machine) {
        Some(at) => Some(Chosen {
            line: at.line,
            function: at.spot.function.0,
        }),
        None => None,
    }
}

/// Those of an outer frame, at a depth: the line is that of its call.
fn chosen_at<M: ExpressionMachine>(depth: usize, machine: &M) -> Option<Chosen>
    ensures { (s : Setting) (d : Debugger) → M.stands machine.now s d → ChoosesAt s.program depth (now s d) result }
{
    match machine.spot(depth) {
        Some(spot) => Some(Chosen {
            line: call_line(depth, machine),
            function: spot.function.0,
        }),
        None => None,
    }
}

/// The line of the call that the frame at a depth made.
fn call_line<M: ExpressionMachine>(depth: usize, machine: &M) -> usize {
    match machine.call(depth) {
        Some(call) => call.place.line as usize,
        None => 0,
    }
}

/// Goes back to the start of the run and on to where it stood, and counts the steps on the way.
fn count_so_far<M: ExpressionMachine>(chosen: Option<Chosen>, session: &mut Session<M>) -> SoFar
    ensures done { (s : Setting) (d : Debugger) → StandsFor M.stands session.old s d → HasDone M.stands s (moments.walked (kept_steps d) s d) d session.new }
    ensures counted { (s : Setting) (d : Debugger) → StandsFor M.stands session.old s d → 1 ≤ s.limit → kept_steps d < 2 ^ 36
        → (result ≡ lanes.counted s.program chosen (lanes.stands_so_far s d)) × IsFewSoFar (2 ^ 40) result }
{
    let here = session.machine().kept_steps() as u64;
    let _ = move_to(0, session);
    let so_far = count_on(here, chosen, session);
    let _ = move_to(here, session);
    so_far
}

/// Makes single steps, so many, up to the first that is not made, and counts each before it is tried.
fn count_on<M: ExpressionMachine>(
    most: u64,
    chosen: Option<Chosen>,
    session: &mut Session<M>,
) -> SoFar
    ensures stands { (s : Setting) (d : Debugger) → StandsFor M.stands session.old s d → StandsFor M.stands session.new s (moments.led s (moments.steps_on most s d) d) }
    ensures counted { (s : Setting) (d : Debugger) → StandsFor M.stands session.old s d → 1 ≤ s.limit → most < 2 ^ 36
        → result ≡ lanes.counted s.program chosen (stands_of s.program most (now s d)) }
    ensures few { most < 2 ^ 36 → IsFewSoFar (2 ^ 40) result }
{
    let mut so_far = SoFar::none();
    let mut left = most;
    while left > 0 {
        so_far = note(so_far, chosen, session.machine());
        if !make_step(session) {
            return so_far;
        }
        left -= 1;
    }
    so_far
}

/// Makes a single step: whether it was made.
fn make_step<M: ExpressionMachine>(session: &mut Session<M>) -> bool
    ensures there { (s : Setting) (d : Debugger) → StandsFor M.stands session.old s d → StandsFor M.stands session.new s (do_command s (DoStep 1) d).next }
    ensures made { (s : Setting) (d : Debugger) → StandsFor M.stands session.old s d → result ≡ readings.is_here (do_command s (DoStep 1) d).answer }
{
    let answer = session.do_command(Command::Step(1));
    is_here(&answer)
}

/// With the step at which the program stands, unless it has ended.
fn note<M: ExpressionMachine>(so_far: SoFar, chosen: Option<Chosen>, machine: &M) -> SoFar
    ensures counted { IsFewSoFar (2 ^ 40) so_far → (s : Setting) (d : Debugger) → M.stands machine.now s d → (later : List Stand)
        → lanes.with_later s.program chosen so_far (lanes.next_stand (has_ended (now s d)) (stand_of s.program (now s d)) later) ≡ lanes.with_later s.program chosen result later }
    ensures few { (n : ℕ) → IsFewSoFar n so_far → n ≤ 2 ^ 40 → IsFewSoFar (n + 16) result }
{
    match next_step(machine) {
        Some(at) => so_far.and_step(
            at,
            is_of_line(chosen, at),
            is_of_function(chosen, at, machine),
        ),
        None => so_far,
    }
}

/// Whether a step is one of the chosen line.
fn is_of_line(chosen: Option<Chosen>, at: StepAt<'_>) -> bool
    ensures { (stand : Stand) → IsAt at.entry stand → result ≡ lanes.of_line chosen stand }
{
    match chosen {
        Some(chosen) => at.line == chosen.line,
        None => false,
    }
}

/// Whether a step is one of the chosen function, or of one of its name.
fn is_of_function<M: ExpressionMachine>(chosen: Option<Chosen>, at: StepAt<'_>, machine: &M) -> bool
    ensures { (s : Setting) (d : Debugger) (stand : Stand) → M.stands machine.now s d → IsAt at.entry stand → result ≡ lanes.of_function s.program chosen stand }
{
    match chosen {
        Some(chosen) => at.function == name_of(machine.program(), chosen.function),
        None => false,
    }
}

/// Shows what was counted.
fn show_so_far<M: ExpressionMachine, O: AnswerWriter + Drop>(
    chosen: Option<Chosen>,
    so_far: SoFar,
    machine: &M,
    page: &mut Page<O>,
)
    ensures { (s : Setting) (d : Debugger) → M.stands machine.now s d → IsFewSoFar (2 ^ 40) so_far → Puts (lanes.so_far_text s.program chosen so_far) page.old.has_failed page.new.has_failed (O.written page.old.writer) (O.written page.new.writer) }
{
    let run = share_told(so_far.all, so_far.width);
    match chosen {
        Some(chosen) => {
            let here = shares_here(chosen, so_far, machine);
            show_lanes(so_far.width, Some(here), run, page);
        }
        None => show_lanes(so_far.width, None, run, page),
    }
}

/// What is told of the steps of the chosen line and function.
fn shares_here<M: ExpressionMachine>(chosen: Chosen, so_far: SoFar, machine: &M) -> SharesHere<'_>
    ensures { (s : Setting) (d : Debugger) → M.stands machine.now s d → IsFewSoFar (2 ^ 40) so_far
        → here_text (Some result) ≡ lanes.rows_of s.program (Some chosen) so_far }
{
    let at_line = share_told(so_far.line, so_far.width);
    let in_function = share_told(so_far.function, so_far.width);
    SharesHere {
        line: chosen.line,
        at_line,
        function: name_of(machine.program(), chosen.function),
        in_function,
    }
}

/// What is told of counts.
fn share_told(counts: Counts, width: usize) -> LaneShare
    ensures { IsFew (2 ^ 40) counts → width ≤ 16 → result ≡ lanes.told_of counts width }
{
    LaneShare {
        steps: counts.steps,
        share: share(counts, width),
        lost: lost(counts, width),
    }
}
